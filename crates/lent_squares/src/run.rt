ghost use Rattle.std.specs.Prelude.{◌≡◌, ◌*◌, IfSome};

use crate::bench::Bench;
use crate::office::{Asked, Office};
use lent_values::{Naming, Opened};
use std::marker::{Brand, Send};
use std::sync::{Mutex, Wait};
use std::thread;
use std::thread::Threads;

// Takes a piece out, works it with no lock held, and gives back what it came to.
fn work_one<R: Wait, X: Bench>(rt: &R, shared: &Mutex<X>, is_first: bool) {
    let piece = shared.lock(rt).hand_out(is_first);
    if let Some(piece) = piece {
        let done = X::work(piece);
        shared.lock(rt).take(is_first, done);
    }
}

// Works both pieces, by a thread each.
fn work_both<R: Threads + Wait + Sync, X: Bench + Send>(rt: &R, shared: &Mutex<X>) {
    thread::join(
        rt,
        move || { work_one(rt, shared, true) },
        move || { work_one(rt, shared, false) },
    );
}

fn square_both<R: Threads + Wait + Sync, J: Naming + Asked + Send>(
    rt: &R,
    opened: Opened<u32>,
    first: u32,
    second: u32,
) -> Option<(u64, u64)>
    requires book { opened ≡ J.book }
    requires numbers { (first ≡ J.first) × (second ≡ J.second) }
    ensures { IfSome result (λ r. (r.0 ≡ first * first) × (r.1 ≡ second * second)) }
{
    let shared = Mutex::new(Office::<J>::new(opened, first, second));
    work_both(rt, &shared);
    shared.into_inner().end()
}

/// The squares of two numbers, each by a thread of its own.
pub fn squares<R: Threads + Wait + Sync>(rt: &R, first: u32, second: u32) -> Option<(u64, u64)>
    ensures { IfSome result (λ r. (r.0 ≡ first * first) × (r.1 ≡ second * second)) }
{
    square_both::<R, Brand>(rt, Opened::new(), first, second)
}
