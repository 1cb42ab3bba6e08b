// Scripts of sessions.
ghost use Rattle.std.specs.Prelude.{◌≤◌, length, IfOk};

use rdb_types::NoMemory;
use rdo_parser::Script;
use session_states::{ItemQueue, WholeScript};
use std::alloc::Global;

/// A script has so many bytes at most; of a longer one nothing is said.
const MAX_TEXT: usize = 1_048_576;

/// A script has so many items at most.
const MAX_ITEMS: u32 = 20_000;

/// The script of a text.
pub fn script_of(alloc: Global, text: &[u8]) -> Result<WholeScript, NoMemory>
    ensures { IfOk result (λ script. length script.items ≤ 20000) }
{
    let mut items = ItemQueue::new(alloc);
    if MAX_TEXT < text.len() {
        return Ok(WholeScript {
            items,
            stops: false,
        });
    }
    let mut script = Script::new(text);
    for _ in 0..MAX_ITEMS {
        let Some(item) = script.next_item(alloc)? else {
            return Ok(WholeScript {
                items,
                stops: script.stops(),
            });
        };
        items.push(item)?;
    }
    Ok(WholeScript {
        items,
        stops: false,
    })
}
