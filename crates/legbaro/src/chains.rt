// One reply for several files of one master: the owner judges it, the host makes it.
ghost use Rattle.std.specs.Prelude.{◌≡◌};
ghost use Rattle.scheme.specs.Pools.{pool_code, pool_cards, gather_code, gather_out};
ghost use Rattle.scheme.specs.Roles.{under, may_pool};
ghost use Rattle.standard.specs.Standard.{standard};

use crate::{judged, number};

// Judge a pooled reply: the verdict, 0 or 11, on the cards of two to sixteen drawn files, which lie end to end in the order of the reply. Either verdict
// closes every draw. Codes 22, 2 and 1 for the cut of the cards, 1, 2, 3, 23, 9.
#[unsafe(no_mangle)]
pub extern "C" fn legbaro_judge_pool(
    role: u64,
    master: &[u8],
    cards: &mut [u8],
    reply: &[u8],
) -> u64
    ensures value { result ≡ under role may_pool (pool_code standard master.now cards.old reply.now) 22 }
    ensures cards_after { cards.new ≡ under role may_pool (pool_cards standard master.now cards.old reply.now) cards.old }
{
    judged(access::judge_pool(role, master, cards, reply))
}

// Pool, the host's: writes the pooled reply that two to sixteen single replies make, which lie end to end. Codes 1, 2, 23, 1.
#[unsafe(no_mangle)]
pub extern "C" fn legbaro_pool(replies: &[u8], pooled: &mut [u8]) -> u64
    ensures value { result ≡ gather_code replies.now pooled.old }
    ensures pooled_after { pooled.new ≡ gather_out replies.now pooled.old }
{
    number(pools::gathering::gather(replies, pooled))
}
