// The ranks one by one: vmids in use and in requests, and that nobody deals with itself.
#![tactic(auto)]

ghost use Rattle.std.specs.Prelude.{◌≡◌};
ghost use Rattle.soundness_ranks.specs.Ranks.{request_drawn, nothing_with_self, rank_sound, ranks_sound};

use broker::link::Link;
use broker::process::{Process, Request, asks_for};
use broker::state::Broker;
use soundness_names::{is_drawn, vmids_drawn};
use transit::{CELLS, RANKS, Rank};

// A request is to a rank, and posted to a vmid that is drawn.
fn request_drawn(drawn: [u16; 8], request: Option<Request>) -> bool
    ensures { result ≡ request_drawn drawn request }
{
    request.is_none_or(|q| (q.to.0 < Broker::RANKS) & is_drawn(drawn, q.vmid))
}

fn nothing_with_self(r: Rank, request: Option<Request>, own: Link) -> bool
    ensures { result ≡ nothing_with_self r request own }
{
    own.connection.is_closed() & own.backlog.is_clear() & !asks_for(request, r)
}

// A rank's process, and its link to itself.
fn rank_sound(drawn: [u16; 8], r: Rank, p: Process, own: Link) -> bool
    ensures { result ≡ rank_sound drawn r p own }
{
    vmids_drawn(drawn, p.status)
        & request_drawn(drawn, p.request)
        & nothing_with_self(r, p.request, own)
}

// Every rank, up to the first that fails.
pub fn ranks_sound(drawn: [u16; 8], processes: [Process; RANKS], links: [Link; CELLS]) -> bool
    ensures { result ≡ ranks_sound drawn processes links }
{
    (0..RANKS).all(|i| rank_sound(drawn, Rank(i as u8), processes[i], links[RANKS * i + i]))
}
