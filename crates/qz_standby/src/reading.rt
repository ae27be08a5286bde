//! Reading a stream to its end.
ghost use Rattle.std.specs.Prelude.{◌≡◌, ◌≤◌, [], Err, OnOk, IfOk, IfErr};
ghost use Rattle.qz_civil.specs.Causes.{Rose};
ghost use Rattle.qz_follow.specs.Following.{IsFollowed};
ghost use Rattle.qz_follow.specs.View.{view, keeps_of};
ghost use Rattle.qz_standby.specs.Forms.{needs_payloads};
ghost use Rattle.qz_standby.specs.Reading.{HasRead, IsUnread};

use crate::{Form, Unread};
use qz_follow::{FollowFault, Follower};
use qz_io::Source;
use std::alloc::Global;

/// How many bytes one read asks for.
pub(crate) const PIECE: usize = 65536;

/// The most bytes that a stream has before it ends or has a fault: a store has up to 2^29, and a gate and three bytes of a length may
/// come after its last payload.
const STREAM_LIMIT: usize = 536870915;

/// Reads the bytes of a trigger store, up to the end of the input or to the piece in which a gate that isn't open ends them: never
/// more than 2^30. The follower that took them can be made into a store of this form.
///
/// The fault of the stream that is met first is answered, and none of the input is read after the piece that has it.
pub fn read_stream<S: Source>(alloc: Global, form: Form, input: &mut S) -> Result<Follower, Unread>
    ensures read { IfOk result (λ f. HasRead (S.left input.old) (S.left input.new) (view f)) }
    ensures keeps { IfOk result (λ f. keeps_of f ≡ needs_payloads form) }
    ensures unread { IfErr result (λ e. IsUnread e (S.left input.old) (S.left input.new)) }
    ensures later { S.faults input.old ≤ S.faults input.new }
    ensures failed { result ≡ Err Unread.Failed → Rose (S.faults input.old) (S.faults input.new) }
{
    let Ok(mut follower) = Follower::new(alloc, form.keeping()) else {
        return Err(Unread::Stream {
            fault: FollowFault::NoMemory,
        });
    };
    match feed_all(&mut follower, input) {
        Ok(()) => Ok(follower),
        Err(unread) => {
            drop(follower);
            Err(unread)
        }
    }
}

// Feeds the input to a follower to which no byte was fed.
fn feed_all<S: Source>(follower: &mut Follower, input: &mut S) -> Result<(), Unread>
    requires fresh { IsFollowed [] (view follower.old) }
    ensures read { OnOk result (HasRead (S.left input.old) (S.left input.new) (view follower.new)) }
    ensures keeps { keeps_of follower.new ≡ keeps_of follower.old }
    ensures unread { IfErr result (λ e. IsUnread e (S.left input.old) (S.left input.new)) }
    ensures later { S.faults input.old ≤ S.faults input.new }
    ensures failed { result ≡ Err Unread.Failed → Rose (S.faults input.old) (S.faults input.new) }
{
    let mut piece = [0u8; PIECE];
    let mut fed = 0;
    while fed <= STREAM_LIMIT {
        let count = match input.read(&mut piece) {
            Ok(count) => count,
            Err(_) => return Err(Unread::Failed),
        };
        if count == 0 {
            return Ok(());
        }
        if let Err(fault) = follower.feed(&piece[..count]) {
            return Err(Unread::Stream { fault });
        }
        if follower.ended() {
            return Ok(());
        }
        fed += count;
    }
    unreachable!()
}
