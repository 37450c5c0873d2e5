// A caller that counts, and asks how much it was.
ghost use Rattle.std.specs.Prelude.{◌≡◌, ◌+◌, ◌<◌};

use std::marker::Brand;
use std::sync::ledger::{Blank, Ledger};
use steps::Steps;

/// A call that hands out so many.
fn hand_out<L: Ledger>(count: usize, steps: &mut Steps<L>) -> usize
    ensures handed { result ≡ count }
    ensures cost { steps.new ≡ steps.old + 1 + count }
{
    steps.count_call(count);
    count
}

/// What two calls hand out, and the steps that they take, with a counter of their own.
fn hand_out_twice<L: Ledger>(blank: Blank) -> (usize, u64)
    requires name { blank.name ≡ L.name }
    requires parts { blank.parts ≡ L.parts }
    requires some { 0 < blank.parts }
    ensures handed { result.0 ≡ 7 }
    ensures steps { result.1 ≡ 9 }
{
    let mut steps: Steps<L> = Steps::open(blank);
    let first = hand_out(3, &mut steps);
    let second = hand_out(4, &mut steps);
    (first + second, steps.taken())
}

#[test]
fn counts_what_is_handed_out(rt: HostRuntime) {
    assert!(rt; hand_out_twice::<Brand>(Blank::new(1)) == (7, 9));
}

/// The steps of two calls that hand out the most there can be.
fn hand_out_most<L: Ledger>(blank: Blank) -> u64
    requires name { blank.name ≡ L.name }
    requires parts { blank.parts ≡ L.parts }
    requires some { 0 < blank.parts }
{
    let mut steps: Steps<L> = Steps::open(blank);
    steps.count_call(usize::MAX);
    steps.count_call(usize::MAX);
    steps.taken()
}

#[test]
fn counts_up_to_the_largest_number(rt: HostRuntime) {
    assert!(rt; hand_out_most::<Brand>(Blank::new(1)) == u64::MAX);
}
