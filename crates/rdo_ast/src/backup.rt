//! The number of a backup.
ghost use Rattle.std.specs.Prelude.{◌≡◌, ◌≤◌};

use std::marker::Model;

/// From 1 to 9. Contracts see it as a number.
#[derive(Clone, Copy)]
pub struct BackupNumber {
    number: u8,
}

impl Model for BackupNumber {
    ghost use Rattle.std.specs.Prelude.{ℕ, ◌≤◌};

    ghost Value = { ℕ };

    ghost view = { λ n. n.number };

    ghost invariant = { λ n. (1 ≤ n.number) × (n.number ≤ 9) };

    ghost inverse = { λ n. record { number = n } };
}

impl BackupNumber {
    /// This number.
    pub fn new(number: u8) -> BackupNumber
        requires within { (1 ≤ number) × (number ≤ 9) }
        ensures { result ≡ number }
    {
        BackupNumber { number }
    }

    /// The number itself.
    pub fn get(self) -> u8
        ensures number { result ≡ self }
        ensures within { (1 ≤ self) × (self ≤ 9) }
    {
        self.number
    }
}
