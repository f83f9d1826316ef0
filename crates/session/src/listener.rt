//! Who hears the replies of a session.
ghost use Rattle.std.specs.Prelude.{ℕ, List, OnOk};
ghost use Rattle.reply.specs.Replies.{reply_text};

use reply::Reply;
use std::io;

/// Who hears the replies of a session, one for each line.
// Not a closure: a trait's ghost member says by what relation a listener changes, over the listener as it is held.
pub trait Listener {
    // of the listener before, the text of a reply that it heard, and the listener after
    ghost hears: { Self → List ℕ → Self → Type 0 };

    fn hear(&mut self, reply: Reply<'_>) -> io::Result<()>
        ensures heard { OnOk result (hears self.old (reply_text reply.entry) self.new) };
}
