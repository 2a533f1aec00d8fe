// Room for what there is to write, by its length alone.
#![tactic(auto)]

ghost use Rattle.std.specs.Prelude.{◌≡◌};
ghost use Rattle.basics.specs.Answers.{after, reply_of};
ghost use Rattle.rules.specs.Refusals.{room_of};

use basics::Refusal;
use rules::Reason;

// So many bytes where there is room for them from the place on.
pub fn room(bytes: u64, size: u64, at: u64) -> Result<u64, Refusal>
    ensures { reply_of result ≡ room_of size at bytes }
{
    if size < at {
        return Err(Reason::NoRoom.at(bytes));
    }
    if size - at < bytes {
        return Err(Reason::NoRoom.at(bytes));
    }
    Ok(bytes)
}

// The same of an answer's bytes; a refusal stays what it is.
pub fn reply_for(reply: Result<u64, Refusal>, size: u64, at: u64) -> Result<u64, Refusal>
    ensures { reply_of result ≡ after (reply_of reply) (room_of size at) }
{
    room(reply?, size, at)
}
