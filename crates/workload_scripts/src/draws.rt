// Transfers that are drawn.
ghost use Rattle.std.specs.Prelude.{◌≡◌, ◌<◌};
ghost use Rattle.workload_scripts.specs.Draws.{drawn, behind_transfer, transfer_drawn};

/// A transfer from an account to one, of an amount.
#[derive(Clone, Copy, Debug, PartialEq, Eq)]
pub struct Transfer {
    pub from: u32,
    pub to: u32,
    pub amount: u32,
}

/// A transfer, and the number that was drawn last.
#[derive(Clone, Copy)]
pub struct Drawn {
    pub transfer: Transfer,
    pub number: u32,
}

fn draw(number: u32) -> u32
    ensures { result ≡ drawn number }
{
    ((u64::from(number) * 1103515245 + 12345) % 2147483648) as u32
}

/// Draws the numbers of a transfer between these accounts.
pub fn draw_transfer(accounts: u32, number: u32) -> Drawn
    requires some { 0 < accounts }
    ensures transfer { result.transfer ≡ transfer_drawn accounts number }
    ensures number { result.number ≡ behind_transfer number }
{
    let first = draw(number);
    let second = draw(first);
    let third = draw(second);
    Drawn {
        transfer: Transfer {
            from: 1 + first % accounts,
            to: 1 + second % accounts,
            amount: 1 + third % 100,
        },
        number: third,
    }
}
