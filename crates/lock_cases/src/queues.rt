// The queues of one resource.
use crate::answers::{tell, tell_mode, tell_owners, tell_truth};
use crate::said::Said;
use std::alloc::AllocError;
use vms_queues::{Answer, Resource};

fn tell_answer(rt: &HostRuntime, answer: Result<Answer, AllocError>) {
    match answer {
        Ok(Answer::Granted) => tell(rt, "granted"),
        Ok(Answer::Queued(in_way)) => tell_owners(rt, "queued behind", in_way.as_slice()),
        Err(_) => tell(rt, "NO MEMORY"),
    }
}

// Asks for an owner that has nothing here, and converts for one that holds a mode.
#[tactic(auto, using(vms_locks::proofs::Waiting::holds_mode))]
fn ask(rt: &HostRuntime, queues: &mut Resource, said: &Said<'_>) {
    if queues.is_queued(said.owner) {
        return tell(rt, "IT IS QUEUED");
    }
    if queues.mode_of(said.owner).is_some() {
        tell_answer(rt, queues.convert(said.owner, said.need.mode));
    } else {
        tell_answer(rt, queues.ask(said.owner, said.need.mode));
    }
}

fn tell_in_way(rt: &HostRuntime, queues: &Resource, said: &Said<'_>) {
    match queues.holders_in_way(said.owner, said.need.mode) {
        Ok(holders) => tell_owners(rt, "in the way", holders.as_slice()),
        Err(_) => tell(rt, "NO MEMORY"),
    }
}

/// Does what a line says of them. False where it says nothing of the kind.
pub fn say_of_queues(rt: &HostRuntime, queues: &mut Resource, said: &Said<'_>) -> bool {
    let Said {
        owner,
        other,
        third,
        need,
        ..
    } = *said;
    match said.call {
        "ask" => ask(rt, queues, said),
        "release" => queues.release(owner),
        "cancel" => queues.cancel(owner),
        "mode" => tell_mode(rt, queues.mode_of(owner)),
        "waits" => tell_truth(rt, queues.waits_for(owner, other)),
        "if-asking" => tell_truth(rt, queues.waits_if_asking(owner, need.mode, other, third)),
        "if-converting" => tell_truth(
            rt,
            queues.waits_if_converting(owner, need.mode, other, third),
        ),
        "in-way" => tell_in_way(rt, queues, said),
        _ => return false,
    }
    true
}
