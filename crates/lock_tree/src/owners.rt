ghost use Rattle.std.specs.Prelude.{◌≡◌};
ghost use Rattle.vms_queues.specs.Owners.{is_owner as is_number_of_owner};

/// How many owners there may be. They are numbered from 1.
pub const MAX_OWNERS: u32 = 16;

/// Whether the number is that of an owner.
pub fn is_owner(number: u32) -> bool
    ensures { result ≡ is_number_of_owner number }
{
    1 <= number && number <= MAX_OWNERS
}
