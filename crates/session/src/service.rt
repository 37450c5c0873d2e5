// What answers requests.
ghost use Rattle.std.specs.Prelude.{◌≡◌, ◌≢◌, ℕ, [], ◌∷◌};
ghost use Rattle.semantics.specs.Histories.{History};
ghost use Rattle.protocol.specs.Told.{Told};
ghost use Rattle.request_codec.specs.Plain.{plain_request, plain_reply};

use request_codec::{Reply, Request};

/// What answers the requests of one client.
pub trait Service {
    /// The client's number.
    ghost number: { Self → ℕ };

    /// The history that the client has seen.
    ghost view: { Self → History };

    /// Answers a request other than `Quit`, over a history that goes on from the one that the client has seen. A service
    /// that may wait, for a lock or another client, keeps the runtime in a field, and its impl block alone has the bound
    /// for that. Each other one is proved to return.
    fn answer(&mut self, request: Request) -> Reply
        requires { request ≢ Request.Quit }
        ensures told { Told (view self.old) (view self.new) (number self.old) (plain_request request ∷ []) (plain_reply result ∷ []) }
        ensures same_number { number self.new ≡ number self.old };

    /// Lets go of what is kept and can be made anew, the least recently used first, and says whether something went. It is called
    /// where no memory was found for a request, for its reply or for a link, and takes none. What is kept so lies behind locks:
    /// for whoever asks it the service stays as it is. A service that keeps nothing of the kind does nothing.
    fn make_room(&self) -> bool {
        false
    }
}
