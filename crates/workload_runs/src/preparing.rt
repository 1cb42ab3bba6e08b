// What the next run says, over what it stands.
ghost use Rattle.std.specs.Prelude.{◌≡◌, ◌<◌, ◌≤◌, ◌^◌, ◌⊎◌, ◌∷◌, [], All, IfOk, IfErr, IsErrOf, IsTrue, length};
ghost use Rattle.rdb_outside.specs.Causes.{Rose};
ghost use Rattle.rdb_outside.specs.Disk.{OnlyReads};
ghost use Rattle.root_file.specs.declared.Root.{Root};
ghost use Rattle.root_file.specs.Root.{IsRoot};
ghost use Rattle.new_database.specs.Maker.{root_file as root_named};
ghost use Rattle.stable_lines.specs.Journal.{Journal, IsJournalOf, next_slot};
ghost use Rattle.line_runs.specs.opened_store.Opened.{AreUsedUp};
ghost use Rattle.workload_runs.specs.Scripts.{scripts_in, texts_in};

use crate::Plan;
use crate::saying::{MOST_SESSIONS, status_of_fault};
use crate::stand::{Stand, find_stand};
use lent_values::Opened;
use line_runs::Said;
use rdb_outside::Disk;
use rdb_types::{Bytes, Copied, NoMemory};
use script_queues::scripts_of;
use session_states::WholeScript;
use std::alloc::Global;
use workload_scripts::{first_script, last_script, transfer_scripts};

/// A run of a workload: the one that makes the accounts, the one that moves money between them, and the one that counts them.
#[derive(Clone, Copy, Debug, PartialEq, Eq)]
pub enum Part {
    First,
    Transfers,
    Last,
}

/// What a run says, and over what it stands.
#[derive(Drop)]
pub(crate) struct Prepared {
    pub said: Said,
    pub stand: Stand,
}

fn one_text(alloc: Global, text: Bytes) -> Result<Vec<Bytes>, NoMemory>
    ensures { IfOk result (λ texts. texts.items ≡ text ∷ []) }
{
    let mut texts = Vec::new(alloc);
    texts.push(text)?;
    Ok(texts)
}

// The texts that a run says.
fn texts_of(alloc: Global, part: Part, accounts: u32) -> Result<Vec<Bytes>, NoMemory>
    requires accounts { (2 ≤ accounts) × (accounts ≤ 2000) }
    ensures texts { IfOk result (λ texts. texts.items ≡ texts_in part accounts) }
    ensures few { IfOk result (λ texts. length texts.items ≤ MOST_SESSIONS) }
    ensures short { IfOk result (λ texts. All (λ text. length text ≤ 1048576) texts.items) }
{
    match part {
        Part::First => one_text(alloc, first_script(alloc, accounts)?),
        Part::Transfers => transfer_scripts(alloc, accounts),
        Part::Last => one_text(alloc, last_script(alloc)?),
    }
}

// The scripts that a run says.
fn scripts_for(alloc: Global, part: Part, accounts: u32) -> Result<Vec<WholeScript>, NoMemory>
    requires accounts { (2 ≤ accounts) × (accounts ≤ 2000) }
    ensures scripts { IfOk result (λ scripts. scripts.items ≡ scripts_in part accounts) }
    ensures few { IfOk result (λ scripts. length scripts.items ≤ MOST_SESSIONS) }
    ensures short { IfOk result (λ scripts. All (λ script. length script.items < 2 ^ 32) scripts.items) }
{
    let texts = texts_of(alloc, part, accounts)?;
    scripts_of(alloc, &texts)
}

// These scripts, said to the database of the plan.
fn said_of(alloc: Global, plan: &Plan, part: Part) -> Result<Said, NoMemory>
    requires accounts { (2 ≤ plan.now.accounts) × (plan.now.accounts ≤ 2000) }
    ensures word { IfOk result (λ said. said.word ≡ plan.now.word) }
    ensures scripts { IfOk result (λ said. said.scripts.items ≡ scripts_in part plan.now.accounts) }
    ensures few { IfOk result (λ said. length said.scripts.items ≤ MOST_SESSIONS) }
    ensures short { IfOk result (λ said. All (λ script. length script.items < 2 ^ 32) said.scripts.items) }
{
    let scripts = scripts_for(alloc, part, plan.accounts)?;
    let word = plan.word.copied(alloc)?;
    Ok(Said {
        word,
        scripts,
        desk: Opened::new(),
    })
}

/// What a run says, and what stands on the disk; or the status with which the workload ends.
pub(crate) fn prepare<D: Disk>(
    alloc: Global,
    disk: &mut D,
    plan: &Plan,
    part: Part,
) -> Result<Prepared, u8>
    requires accounts { (2 ≤ plan.now.accounts) × (plan.now.accounts ≤ 2000) }
    ensures word { IfOk result (λ it. it.said.word ≡ plan.now.word) }
    ensures scripts { IfOk result (λ it. it.said.scripts.items ≡ scripts_in part plan.now.accounts) }
    ensures few { IfOk result (λ it. length it.said.scripts.items ≤ MOST_SESSIONS) }
    ensures short { IfOk result (λ it. All (λ script. length script.items < 2 ^ 32) it.said.scripts.items) }
    ensures limits { IfOk result (λ it. IsTrue (D.view disk.old).tells
        → (root : Root) → IsRoot ((D.view disk.old).content root_named 0) root → it.stand.limits ≡ root.limits) }
    ensures next { IfOk result (λ it. IsTrue (D.view disk.old).tells
        → (journal : Journal) → IsJournalOf (D.view disk.old).content journal → it.stand.next ≡ next_slot journal) }
    ensures numbers { IfOk result (λ it. IsTrue (D.view disk.old).tells
        → (root : Root) → IsRoot ((D.view disk.old).content root_named 0) root
        → (journal : Journal) → IsJournalOf (D.view disk.old).content journal → AreUsedUp journal root → ⊥) }
    ensures status { IfErr result (λ status. (status ≡ 3) ⊎ (status ≡ 4) ⊎ (status ≡ 5)) }
    ensures refused { IsErrOf result 4 → IsTrue (D.view disk.old).tells
        → (root : Root) → IsRoot ((D.view disk.old).content root_named 0) root
        → (journal : Journal) → IsJournalOf (D.view disk.old).content journal → AreUsedUp journal root }
    ensures failed { IsErrOf result 3 → Rose (D.view disk.old).faults (D.view disk.new).faults }
    ensures reads { OnlyReads (D.view disk.old) (D.view disk.new) }
{
    let stand = match find_stand(disk) {
        Ok(stand) => stand,
        Err(fault) => return Err(status_of_fault(fault)),
    };
    match said_of(alloc, plan, part) {
        Ok(said) => Ok(Prepared { said, stand }),
        Err(_) => Err(5),
    }
}
