// Files of the folder.
use std::fs;
use std::os::unix::fs::symlink;

fn tell_if_failed(rt: &HostRuntime, is_done: bool) {
    if !is_done {
        let _ = println!(rt; "  fails");
    }
}

fn tell_if_there(rt: &HostRuntime, name: &str) {
    let _ = match fs::metadata(rt, name) {
        Ok(_) => println!(rt; "  is there"),
        Err(_) => println!(rt; "  is not there"),
    };
}

/// Does what a line says of files. False where it says nothing of the kind.
pub fn say_of_files(rt: &HostRuntime, about: &str, rest: &str) -> bool {
    let (name, other) = rest.split_once(' ').unwrap_or((rest, ""));
    match about {
        "is-there" => tell_if_there(rt, name),
        "remove" => tell_if_failed(rt, fs::remove_file(rt, name).is_ok()),
        "link" => tell_if_failed(rt, symlink(rt, other, name).is_ok()),
        "file" => tell_if_failed(rt, fs::write(rt, name, other).is_ok()),
        _ => return false,
    }
    true
}
