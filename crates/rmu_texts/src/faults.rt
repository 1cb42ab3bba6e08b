// The faults of a verification.
ghost use Rattle.std.specs.Prelude.{◌≡◌, ◌++◌, OnOk};
ghost use Rattle.std.specs.List.{flat_map};
ghost use Rattle.rmu_texts.specs.Faults.{place_line as line_of_place, key_line as line_of_key, fault_line as line_of_fault, faults_text as text_of_faults};

use crate::numbers::{count_line, numbered};
use rdb_types::{Bytes, Chars, Dbkey, Items, NoMemory};

/// A fault of the files: a page or a space page, by area file and number, that fails its decoder; a page that has another owner than its space page says; a line of the catalog, of a relation or of an index that is none; an index, by name, that doesn't hold the keys of its rows.
#[derive(Debug, Drop)]
pub enum VerifyFault {
    Page(u32, u32),
    Owner(u32, u32),
    Catalog(Dbkey),
    Row(Dbkey),
    Node(Dbkey),
    Index(Chars),
}

/// The faults of the files.
pub type Faults = Items<VerifyFault>;

fn place_line(words: &[u8], area: u32, page: u32, out: &mut Bytes) -> Result<(), NoMemory>
    ensures { OnOk result (out.new ≡ out.old ++ line_of_place words.now area page) }
{
    numbered(words, u64::from(area), out)?;
    numbered(b" page ", u64::from(page), out)?;
    out.push(b'\n')
}

fn key_line(words: &[u8], key: Dbkey, out: &mut Bytes) -> Result<(), NoMemory>
    ensures { OnOk result (out.new ≡ out.old ++ line_of_key words.now key) }
{
    numbered(words, u64::from(key.area), out)?;
    numbered(b":", u64::from(key.page), out)?;
    numbered(b":", u64::from(key.line), out)?;
    out.push(b'\n')
}

fn index_line(name: &Chars, out: &mut Bytes) -> Result<(), NoMemory>
    ensures { OnOk result (out.new ≡ out.old ++ line_of_fault (VerifyFault.Index name.now)) }
{
    out.extend(b"%RMU-E-INDEX, ")?;
    out.extend(name.as_slice())?;
    out.push(b'\n')
}

fn fault_line(fault: &VerifyFault, out: &mut Bytes) -> Result<(), NoMemory>
    ensures { OnOk result (out.new ≡ out.old ++ line_of_fault fault.now) }
{
    match fault {
        VerifyFault::Page(area, page) => place_line(b"%RMU-E-PAGE, area ", *area, *page, out),
        VerifyFault::Owner(area, page) => place_line(b"%RMU-E-OWNER, area ", *area, *page, out),
        VerifyFault::Catalog(key) => key_line(b"%RMU-E-CATALOG, dbkey ", *key, out),
        VerifyFault::Row(key) => key_line(b"%RMU-E-ROW, dbkey ", *key, out),
        VerifyFault::Node(key) => key_line(b"%RMU-E-NODE, dbkey ", *key, out),
        VerifyFault::Index(name) => index_line(name, out),
    }
}

fn fault_lines(faults: &[VerifyFault], out: &mut Bytes) -> Result<(), NoMemory>
    ensures { OnOk result (out.new ≡ out.old ++ flat_map line_of_fault faults.now) }
{
    for fault in faults {
        fault_line(fault, out)?;
    }
    Ok(())
}

/// Adds the line of each fault, and how many there are.
pub fn faults_text(faults: &[VerifyFault], out: &mut Bytes) -> Result<(), NoMemory>
    ensures { OnOk result (out.new ≡ out.old ++ text_of_faults faults.now) }
{
    fault_lines(faults, out)?;
    count_line(faults.len() as u64, b"faults", out)
}
