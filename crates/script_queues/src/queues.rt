//! Scripts, read to their ends.
ghost use Rattle.std.specs.Prelude.{◌≡◌, ◌≤◌, ◌<◌, ◌^◌, length, map, All, IfOk};
ghost use Rattle.script_queues.specs.Scripts.{whole_script};

use rdb_types::{Bytes, NoMemory};
use rdo_parser::Script;
use session_states::{ItemQueue, WholeScript};
use std::alloc::Global;

// The script of a text.
fn read_whole(alloc: Global, text: &[u8]) -> Result<WholeScript, NoMemory>
    requires short { length text.now < 2 ^ 31 }
    ensures script { IfOk result (λ script. script ≡ whole_script text.now) }
{
    let mut items = ItemQueue::new(alloc);
    let mut script = Script::new(text);
    loop {
        match script.next_item(alloc) {
            Err(e) => return Err(e),
            Ok(None) => {
                return Ok(WholeScript {
                    items,
                    stops: script.stops(),
                });
            }
            Ok(Some(item)) => items.push(item)?,
        }
    }
}

/// The script of a text of at most 1,048,576 bytes.
pub fn script_of(alloc: Global, text: &[u8]) -> Result<WholeScript, NoMemory>
    requires short { length text.now ≤ 1048576 }
    ensures script { IfOk result (λ script. script ≡ whole_script text.now) }
    ensures few { IfOk result (λ script. length script.items < 2 ^ 32) }
{
    read_whole(alloc, text)
}

/// The script of each of these texts, of at most 1,048,576 bytes.
pub fn scripts_of(alloc: Global, texts: &[Bytes]) -> Result<Vec<WholeScript>, NoMemory>
    requires short { All (λ text. length text ≤ 1048576) texts.now }
    ensures scripts { IfOk result (λ scripts. scripts.items ≡ map whole_script texts.now) }
    ensures few { IfOk result (λ scripts. All (λ script. length script.items < 2 ^ 32) scripts.items) }
{
    let mut scripts = Vec::new(alloc);
    for text in texts {
        scripts.push(script_of(alloc, text.as_slice())?)?;
    }
    Ok(scripts)
}
