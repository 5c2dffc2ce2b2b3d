//! Comments in a text of Verilog.

ghost use Rattle.std.specs.Prelude.{◌≡◌, ◌==◌, [], IfOk};
ghost use Rattle.si_base.specs.Lines.{begins};
ghost use Rattle.si_verilog.specs.Symbols.{is_blank as blank};
ghost use Rattle.si_verilog_reader.specs.Comments as spec;
ghost use Rattle.si_verilog_reader.specs.Loops.Regions.{region_now};

use si_base::ids::NoMemory;
use si_base::text::Text;
use std::alloc::Global;

/// Where a byte stands.
#[derive(Clone, Copy)]
enum Region {
    /// In no comment and no escaped name.
    Code,
    /// In an escaped name.
    Escaped,
    /// In a comment that goes to the end of its line.
    OfLine,
    /// At the second byte of the other kind.
    Opening,
    /// In a comment of the other kind.
    OfBlock,
    /// In such a comment, behind a `*`.
    Star,
}

fn is_blank(b: u8) -> bool
    ensures { result ≡ blank b }
{
    b == b' ' || b == b'\t' || b == b'\n' || b == b'\r' || b == 12
}

/// Whether the byte stands first.
fn begins_with(bytes: &[u8], byte: u8) -> bool
    ensures { result ≡ begins (λ b. b == byte) bytes.now }
{
    match bytes {
        [] => false,
        [first, ..] => *first == byte,
    }
}

/// Where the next byte stands, behind one of the code and before those.
fn behind_code(b: u8, behind: &[u8]) -> Region
    ensures { region_now result ≡ spec.next_region spec.Code b behind.now }
{
    if b == b'\\' {
        Region::Escaped
    } else if b == b'/' && begins_with(behind, b'/') {
        Region::OfLine
    } else if b == b'/' && begins_with(behind, b'*') {
        Region::Opening
    } else {
        Region::Code
    }
}

fn behind_escaped(b: u8) -> Region
    ensures { region_now result ≡ spec.next_region spec.Escaped b [] }
{
    if is_blank(b) {
        Region::Code
    } else {
        Region::Escaped
    }
}

fn behind_star(b: u8) -> Region
    ensures { region_now result ≡ spec.next_region spec.Star b [] }
{
    if b == b'/' {
        Region::Code
    } else if b == b'*' {
        Region::Star
    } else {
        Region::OfBlock
    }
}

/// Where the next byte stands, behind one that stands in the region and before those.
fn next_region(region: Region, b: u8, behind: &[u8]) -> Region
    ensures { region_now result ≡ spec.next_region (region_now region) b behind.now }
{
    match region {
        Region::Code => behind_code(b, behind),
        Region::Escaped => behind_escaped(b),
        Region::OfLine => {
            if b == b'\n' {
                Region::Code
            } else {
                Region::OfLine
            }
        }
        Region::Opening => Region::OfBlock,
        Region::OfBlock => {
            if b == b'*' {
                Region::Star
            } else {
                Region::OfBlock
            }
        }
        Region::Star => behind_star(b),
    }
}

/// What stands in place of a byte of a comment.
fn blank_of(b: u8) -> u8
    ensures { result ≡ spec.blanked spec.OfLine spec.Code b }
{
    if b == b'\n' { b } else { b' ' }
}

/// What stands in place of a byte of the code, by the region of the next byte.
fn blanked_code(next: Region, b: u8) -> u8
    ensures { result ≡ spec.blanked spec.Code (region_now next) b }
{
    match next {
        Region::Code | Region::Escaped => b,
        Region::OfLine | Region::Opening | Region::OfBlock | Region::Star => blank_of(b),
    }
}

/// What stands in place of a byte, by its region and that of the next byte.
fn blanked(region: Region, next: Region, b: u8) -> u8
    ensures { result ≡ spec.blanked (region_now region) (region_now next) b }
{
    match region {
        Region::Code => blanked_code(next, b),
        Region::Escaped => b,
        Region::OfLine | Region::Opening | Region::OfBlock | Region::Star => blank_of(b),
    }
}

/// The text with blanks in place of its comments. It fails only where memory runs out.
#[tactic(auto, unfolding(crate::specs::Comments::without_comments))]
pub fn without_comments(alloc: Global, text: &[u8]) -> Result<Text, NoMemory>
    ensures { IfOk result (λ code. code ≡ spec.without_comments text.now) }
{
    let mut code = Text::copy_of(alloc, b"")?;
    let mut region = Region::Code;
    let mut rest = text;
    while let [b, behind @ ..] = rest {
        let next = next_region(region, *b, behind);
        code.add(&[blanked(region, next, *b)])?;
        region = next;
        rest = behind;
    }
    Ok(code)
}
