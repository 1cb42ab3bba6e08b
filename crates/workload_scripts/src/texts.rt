// Statements as text.
ghost use Rattle.std.specs.Prelude.{◌≡◌, ◌++◌, OnOk, decimal};
ghost use Rattle.workload_scripts.specs.Texts.{numbered as number_behind, store_text as text_of_store, find_text as text_of_finding, move_text as text_of_moving, transfer_text as text_of_transfer};

use crate::Transfer;
use itoa::Buffer;
use rdb_types::{Bytes, NoMemory};

fn numbered(words: &[u8], number: u32, out: &mut Bytes) -> Result<(), NoMemory>
    ensures { OnOk result (out.new ≡ out.old ++ number_behind words.now number) }
{
    let mut buffer = Buffer::new();
    out.extend(words)?;
    out.extend(buffer.format(number).as_bytes())
}

/// Adds the STORE of an account.
pub fn store_text(account: u32, out: &mut Bytes) -> Result<(), NoMemory>
    ensures { OnOk result (out.new ≡ out.old ++ text_of_store account) }
{
    numbered(b"STORE A IN ACCOUNTS USING A.ID = ", account, out)?;
    out.extend(b"; A.BAL = 1000; END_STORE\n")
}

fn find_text(transfer: Transfer, out: &mut Bytes) -> Result<(), NoMemory>
    ensures { OnOk result (out.new ≡ out.old ++ text_of_finding transfer) }
{
    numbered(b"FOR A IN ACCOUNTS WITH A.ID = ", transfer.from, out)?;
    numbered(b" FOR B IN ACCOUNTS WITH B.ID = ", transfer.to, out)
}

fn move_text(transfer: Transfer, out: &mut Bytes) -> Result<(), NoMemory>
    ensures { OnOk result (out.new ≡ out.old ++ text_of_moving transfer) }
{
    numbered(b"\nMODIFY A USING A.BAL = A.BAL - ", transfer.amount, out)?;
    numbered(
        b"; END_MODIFY\nMODIFY B USING B.BAL = B.BAL + ",
        transfer.amount,
        out,
    )
}

/// Adds the statements of a transfer.
pub fn transfer_text(transfer: Transfer, out: &mut Bytes) -> Result<(), NoMemory>
    ensures { OnOk result (out.new ≡ out.old ++ text_of_transfer transfer) }
{
    out.extend(b"START_TRANSACTION READ_WRITE\n")?;
    find_text(transfer, out)?;
    move_text(transfer, out)?;
    out.extend(b"; END_MODIFY\nEND_FOR END_FOR\nCOMMIT\n")
}
