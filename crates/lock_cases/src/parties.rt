// The needs of one owner, the party.
use crate::answers::{tell, tell_mode, tell_need, tell_truth};
use crate::said::Said;
use lock_needs::{Asked, Need, OpenWant, Party, waits_for};
use vms_queues::Mode;

fn add(rt: &HostRuntime, party: &mut Party, need: Need) {
    if party.opened().is_some() || party.add(need).is_err() {
        tell(rt, "NOT ADDED");
    }
}

fn open(rt: &HostRuntime, party: &mut Party, need: Need) {
    let want = OpenWant {
        need,
        here: need.node,
        is_asked: true,
    };
    if party.open_want(want).is_err() {
        tell(rt, "NOT OPENED");
    }
}

fn tell_needs(rt: &HostRuntime, party: &Party) {
    for need in party.needs() {
        tell_need(rt, "needs", *need);
    }
}

// Whether a want of an owner waits for another, the party, that has asked at the node of its second need; the owner asked there after it, or before it.
fn waits(party: &Party, said: &Said<'_>, is_first: bool) -> bool {
    let node = said.second.node;
    let own = Asked {
        owner: said.owner,
        node,
    };
    let others = Asked {
        owner: said.other,
        node,
    };
    let asks = if is_first {
        [own, others]
    } else {
        [others, own]
    };
    waits_for(&asks, said.owner, said.need, said.other, party)
}

/// Does what a line says of it. False where it says nothing of the kind.
pub fn say_of_party(rt: &HostRuntime, party: &mut Party, said: &Said<'_>) -> bool {
    let need = said.need;
    match said.call {
        "add" => add(rt, party, need),
        "open" => open(rt, party, need),
        "needs" => tell_needs(rt, party),
        "below" => tell_mode(rt, Some(party.intents_below(need.node))),
        "needed" => tell_mode(rt, Some(party.needed_on(need.node))),
        "keeps" => tell_mode(rt, Some(party.must_keep(need.mode, need.node))),
        "waits" => tell_truth(rt, waits_for(&[], said.owner, need, said.other, party)),
        "waits-behind" => tell_truth(rt, waits(party, said, false)),
        "waits-before" => tell_truth(rt, waits(party, said, true)),
        _ => return false,
    }
    true
}
