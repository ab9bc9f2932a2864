//! Games, by pb_ledger: submissions, and the replies to them.

ghost use Rattle.std.specs.Prelude.{◌≡◌};
ghost use Rattle.pb_accepted.specs.Accepting.{Answer, Step};
ghost use Rattle.pb_accepted.specs.Accepting.{reply_line};

use pb_ledger::laws::one_line;
use pb_ledger::{Ledger, Reply, Tally};

/// Submits a line, and makes the reply to it.
pub fn reply_to<T: Tally>(ledger: &mut Ledger<T>, line: &[u8]) -> Reply
    // The reply is that of the answer by which the ledger steps on.
    ensures { (answer : Answer) × Step ledger.old.cap ledger.old.accepted line.now answer
        ledger.new.accepted
        × (result ≡ reply_line line.now answer) }
{
    let answer = ledger.submit(line);
    // The law that a reply names a short id, as `Reply::new` asks.
    one_line();
    Reply::new(line, answer)
}
