ghost use Rattle.std.specs.Prelude.{◌≡◌, ◌+◌, ◌<◌, ◌≤◌, [], true, false};
ghost use Rattle.smallvec.specs.SmallVec.{HasRoomFor, small_vec_len};
ghost use Rattle.vms_queues.specs.Queues.{Queues, conversions_considered, requests_considered, passed, considered, is_settled};

use crate::held::{Entries, Held, fits_beside, set_mode};

// Considers the conversions in order, each once.
fn consider_conversions(granted: &mut [Held], converting: &mut Entries)
    ensures after { (granted.new, converting.new.items) ≡ conversions_considered granted.old [] converting.old.items }
    ensures len { small_vec_len converting.new ≤ small_vec_len converting.old }
{
    let mut at: usize = 0;
    while at < converting.len() {
        let next = converting.as_slice()[at];
        if fits_beside(granted, next.owner, next.mode) {
            set_mode(granted, next.owner, next.mode);
            let _granted = converting.remove(at);
        } else {
            at += 1;
        }
    }
}

// Considers the waiting requests in order, each once.
fn consider_requests(granted: &mut Entries, converting: &[Held], waiting: &mut Entries)
    requires { HasRoomFor granted.old (small_vec_len waiting.old) }
    ensures after { (granted.new.items, waiting.new.items) ≡ requests_considered converting.now granted.old.items [] waiting.old.items }
    ensures room { HasRoomFor granted.new (small_vec_len waiting.new) }
    ensures len { small_vec_len waiting.new ≤ small_vec_len waiting.old }
{
    let mut at: usize = 0;
    while at < waiting.len() {
        let next = waiting.as_slice()[at];
        let ahead = &waiting.as_slice()[..at];
        let is_free = fits_beside(granted.as_slice(), next.owner, next.mode)
            && fits_beside(converting, next.owner, next.mode)
            && fits_beside(ahead, next.owner, next.mode);
        if is_free {
            let granted_now = waiting.remove(at);
            granted.push_reserved(granted_now);
        } else {
            at += 1;
        }
    }
}

// Considers the conversions and then the waiting requests, each once. Whether something was granted.
fn pass(granted: &mut Entries, converting: &mut Entries, waiting: &mut Entries) -> bool
    requires { HasRoomFor granted.old (small_vec_len waiting.old) }
    ensures after { let q : Queues = record { granted = granted.old.items; converting = converting.old.items; waiting = waiting.old.items } in record { granted = granted.new.items; converting = converting.new.items; waiting = waiting.new.items } ≡ passed q }
    ensures room { HasRoomFor granted.new (small_vec_len waiting.new) }
    ensures grants { result ≡ true → small_vec_len converting.new + small_vec_len waiting.new < small_vec_len converting.old + small_vec_len waiting.old }
    ensures settled { result ≡ false → small_vec_len converting.new + small_vec_len waiting.new ≡ small_vec_len converting.old + small_vec_len waiting.old }
{
    let conversions = converting.len();
    let requests = waiting.len();
    consider_conversions(granted.as_mut_slice(), converting);
    consider_requests(granted, converting.as_slice(), waiting);
    converting.len() < conversions || waiting.len() < requests
}

// Considers the queues until nothing more is granted.
pub(crate) fn consider(granted: &mut Entries, converting: &mut Entries, waiting: &mut Entries)
    requires { HasRoomFor granted.old (small_vec_len waiting.old) }
    ensures after { let q : Queues = record { granted = granted.old.items; converting = converting.old.items; waiting = waiting.old.items } in record { granted = granted.new.items; converting = converting.new.items; waiting = waiting.new.items } ≡ considered q }
    ensures settled { is_settled (record { granted = granted.new.items; converting = converting.new.items; waiting = waiting.new.items }) ≡ true }
    ensures room { HasRoomFor granted.new (small_vec_len waiting.new) }
{
    'passes: loop {
        if !pass(granted, converting, waiting) {
            return;
        }
    }
}
