// What is answered, as text.
use case_words::{put_bytes, put_key, put_text};
use line_view::{Need, Never, Stop, Write};
use rdb_types::Dbkey;
use rdo_ast::reply::Reply;

pub fn tell(rt: &HostRuntime, answer: &str) {
    let _ = println!(rt; "  {answer}");
}

pub fn tell_need(rt: &HostRuntime, need: Need) {
    let _ = print!(rt; "  needs");
    match need {
        Need::Line(key) => put_key(rt, key),
        Need::Area(area) => {
            let _ = print!(rt; " area {area}");
        }
        Need::Room(room) => {
            let (area, class, nth) = (room.area, room.class, room.nth);
            let _ = print!(rt; " room {nth} of area {area}, class {class}");
        }
    }
    let _ = println!(rt; "");
}

pub fn tell_stop(rt: &HostRuntime, stop: Stop<Never>) {
    match stop {
        Stop::Missing(need) => tell_need(rt, need),
        Stop::Bad(key) => tell_keys(rt, "bad line", &[key]),
        Stop::NoMemory => tell(rt, "NO MEMORY"),
    }
}

pub fn tell_keys(rt: &HostRuntime, what: &str, keys: &[Dbkey]) {
    let _ = print!(rt; "  {what}");
    for key in keys {
        put_key(rt, *key);
    }
    let _ = println!(rt; "");
}

pub fn tell_writes(rt: &HostRuntime, writes: &[Write]) {
    for write in writes {
        let _ = print!(rt; "  writes");
        put_key(rt, write.key);
        if let Some(image) = &write.image {
            put_bytes(rt, image.bytes());
        }
        let _ = println!(rt; "");
    }
}

pub fn tell_reply(rt: &HostRuntime, reply: &Reply) {
    let _ = print!(rt; "  refused:");
    match reply {
        Reply::NoSuch(name) => {
            let _ = print!(rt; " NOSUCH");
            put_text(rt, name.as_slice());
        }
        Reply::Exists(name) => {
            let _ = print!(rt; " EXISTS");
            put_text(rt, name.as_slice());
        }
        Reply::TooLong => {
            let _ = print!(rt; " TOOLONG");
        }
        _ => {
            let _ = print!(rt; " OTHERWISE");
        }
    }
    let _ = println!(rt; "");
}
