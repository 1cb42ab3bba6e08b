// The first slot, with the transaction that is open.
ghost use Rattle.std.specs.Prelude.{◌≡◌, ◌<◌, ◌^◌, List, ℕ, Option, Ok, length, IfOk, OnErr};
ghost use Rattle.rdb_types.specs.declared.keys.Tsn.{Tsn as Number};
ghost use Rattle.ruj_journal.specs.Header.{header_fields, IsHeader, IsWritten, IsAllowed, number_of as count_of};
ghost use Rattle.rdb_page.specs.slot_fields.Fields.{Has};

use rdb_page::{BadPage, has_bytes, has_zeros, is_zeros, put_bytes, put_u64, put_zeros, u64_at};
use rdb_types::Tsn;

fn number_of(tsn: Option<Tsn>) -> u64
    ensures { result ≡ count_of tsn }
{
    match tsn {
        None => 0,
        Some(tsn) => tsn.number,
    }
}

fn tsn_of(number: u64) -> Option<Tsn>
    ensures number { count_of result ≡ number }
    ensures allowed { number < 2 ^ 62 → IsAllowed result }
{
    if number == 0 {
        None
    } else {
        Some(Tsn { number })
    }
}

/// Lays out the header, with the transaction that is open, or with none.
pub fn put_header(slot: &mut [u8], tsn: Option<Tsn>)
    requires size { length slot.old ≡ 512 }
    requires allowed { IsAllowed tsn }
    ensures { IsWritten slot.new tsn }
{
    put_bytes(slot, 0, b"RUJH");
    put_u64(slot, 4, number_of(tsn));
    put_zeros(slot, 12, 500);
}

/// The transaction that is open. It is refused only where the slot is no header. Zeros are one without a transaction.
pub fn open_tsn(header: &[u8]) -> Result<Option<Tsn>, BadPage>
    requires { length header.now ≡ 512 }
    ensures found { IfOk result (λ found. IsHeader header.now found) }
    ensures none { OnErr result ((found : Option Number) → IsHeader header.now found → ⊥) }

    // A header that was laid out is read again.
    ensures again { (found : Option Number) → IsHeader header.now found → result ≡ Ok found }
{
    let number = u64_at(header, 4);
    if is_zeros(header) {
        Ok(None)
    } else if has_bytes(header, 0, b"RUJH") && has_zeros(header, 12, 500) && number < 1 << 62 {
        Ok(tsn_of(number))
    } else {
        Err(BadPage {})
    }
}

/// A slot is one header at most.
pub fn one_header()
    ensures { (slot : List ℕ) (a b : Option Number) → IsHeader slot a → IsHeader slot b → a ≡ b }
{}

#[cfg(test)]
mod tests {
    use super::*;

    #[test]
    fn a_header_has_its_bytes(rt: HostRuntime) {
        let mut slot = [0; 512];
        assert_eq!(rt; open_tsn(&slot), Ok(None));
        put_header(&mut slot, Some(Tsn { number: 0x0102 }));
        assert_eq!(rt; &slot[..14], b"RUJH\x02\x01\0\0\0\0\0\0\0\0".as_slice());
        assert_eq!(rt; open_tsn(&slot), Ok(Some(Tsn { number: 0x0102 })));
        put_header(&mut slot, None);
        assert_eq!(rt; open_tsn(&slot), Ok(None));
        slot[12] = 1;
        assert_eq!(rt; open_tsn(&slot), Err(BadPage {}));
    }
}
