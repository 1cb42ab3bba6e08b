// Lines put on pages by hand, and the space page that speaks of them.
ghost use Rattle.std.specs.Prelude.{◌≡◌, ◌<◌, length};
ghost use Rattle.rdb_page.specs.Page.{IsClass, class_at};
ghost use Rattle.rdb_page.specs.Lines.{IsAllowedLine};

use area_files::grow;
use case_words::put_bytes;
use rdb_page::{Head, lines_of, put_head, put_line, read_head, read_line};
use rdb_types::{Image, Limits, Line, LineState, Tsn};
use space_pages::{check, level, level_of, owner, set};

fn head(page: u32) -> Head
    ensures allowed { IsClass result.class }
    ensures class { result.class ≡ 208 }
{
    Head {
        page,
        owner: 16,
        class: 208,
    }
}

fn line(number: u8) -> Line
    ensures { IsAllowedLine 208 result }
{
    Line {
        state: LineState::Present,
        tsn: Tsn { number: 1 },
        chain: 0,
        image: Image::from_bytes(&[number, 0]),
    }
}

// Puts a line on a page of class 208, which stays one.
fn put(page: &mut [u8], number: u16, value: &Line)
    requires size { length page.old ≡ 1024 }
    requires class { class_at page.old ≡ 208 }
    requires number { number < 4 }
    requires allowed { IsAllowedLine 208 value.now }
    ensures { class_at page.new ≡ 208 }
{
    put_line(page, number, value);
}

// Tells the head of line 3 of a page of class 208, or of line 0, and the first bytes of its image.
fn tell_line(rt: &HostRuntime, page: &[u8; 1024], number: usize) {
    let at = if number == 3 { 24 + 3 * 224 } else { 24 };
    let _ = print!(rt; " ");
    put_bytes(rt, &page[at..at + 18]);
    let _ = println!(rt; "");
}

// Five lines fill 16:2:0 to 16:2:3 and 16:3:0.
fn tell_two_pages(rt: &HostRuntime) {
    let mut second = [0; 1024];
    let mut third = [0; 1024];
    put_head(&mut second, &head(2));
    put_head(&mut third, &head(3));
    put(&mut second, 0, &line(0));
    put(&mut second, 1, &line(1));
    put(&mut second, 2, &line(2));
    put(&mut second, 3, &line(3));
    put(&mut third, 0, &line(4));
    tell_line(rt, &second, 3);
    tell_line(rt, &third, 0);
    let is_second = matches!(read_head(&second, 2, 2), Ok(Some(_)));
    let is_third = read_head(&second, 2, 3).is_ok();
    let _ = println!(rt; "  page 2: {is_second}, as page 3: {is_third}");
}

// The space page that speaks of them.
fn tell_space(rt: &HostRuntime) {
    let mut space = [0; 1024];
    set(&mut space, 2, 16, level_of(4, 4));
    set(&mut space, 3, 16, level_of(1, 4));
    let _ = print!(rt; " ");
    put_bytes(rt, &space[24..34]);
    let (owner, level) = (owner(&space, 3), level(&space, 2));
    let is_sound = check(&space, 1).is_ok();
    let _ = println!(rt; "");
    let _ = println!(rt; "  page 3 is of {owner}, page 2 has level {level}, sound: {is_sound}");
}

// Over a limit of 2 pages there is no second data page.
fn tell_growth(rt: &HostRuntime, pages: u32) {
    let limits = Limits {
        pages: 2,
        snaps: 1,
        entries: 1,
        slots: 2,
    };
    let _ = match grow(&limits, pages) {
        Ok(page) => println!(rt; "  has {page}"),
        Err(full) => {
            let limit = full.limit;
            println!(rt; "  full at {limit}")
        }
    };
}

/// Tells what a line asks of pages. False where it asks nothing of the kind.
pub fn say_of_pages(rt: &HostRuntime, about: &str) -> bool {
    match about {
        "two-pages" => tell_two_pages(rt),
        "space-page" => tell_space(rt),
        "first-page" => tell_growth(rt, 1),
        "second-page" => tell_growth(rt, 2),
        "lines-of-208" => {
            let lines = lines_of(208);
            let _ = println!(rt; "  {lines}");
        }
        _ => return false,
    }
    true
}
