// Laws on the words of the command line.
ghost use Rattle.command_words.specs.Laws.{OneWordIsTwo, OrderIsFree};

/// An option of one word with `=` is the option of two words.
pub fn one_word_is_two()
    ensures { OneWordIsTwo }
{}

/// Arguments behind the command's word may stand in any order.
pub fn order_is_free()
    ensures { OrderIsFree }
{}
