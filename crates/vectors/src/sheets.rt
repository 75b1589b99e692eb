// The sheet that is printed for a text and a trace, against the right one.
use sheet::linewatch_sheet;

// The longest sheet of the cases has 10,110 bytes. The longest trace has 303, whose sheet could have no more than
// 256 + 24 * 256 + 64 * 303: so the whole page surely has room, and one pass is made; a range that just fits is measured first.
const PAGE: usize = 32768;

// What a page holds before: a byte that no sheet has.
const BLANK: u8 = 0xa5;

// A blank page. A part of it is compared with that many bytes at once.
static BLANKS: [u8; PAGE] = [BLANK; PAGE];

// A text and a trace with a name, and the sheet that is right for them.
#[derive(Clone, Copy)]
pub struct Case<'a> {
    pub name: &'a [u8],
    pub text: &'a [u8],
    pub trace: &'a [u8],
    pub sheet: &'a [u8],
}

// Whether the page holds those bytes, and is blank behind them.
fn holds(page: &[u8], bytes: &[u8]) -> bool {
    match page.strip_prefix(bytes) {
        Some(behind) => BLANKS.starts_with(behind),
        None => false,
    }
}

impl<'a> Case<'a> {
    // Whether printing into the first `room` bytes of a blank page answers with the number of `bytes`, and leaves the page with
    // just them at its start.
    fn prints(self, page: &mut [u8], room: usize, bytes: &[u8]) -> bool {
        if page.len() < room {
            return false;
        }
        page.fill(BLANK);
        let n = linewatch_sheet(self.text, self.trace, &mut page[..room]);
        n == bytes.len() && holds(page, bytes)
    }

    // Whether the sheet is right, both with room to spare and in a range that it just fills, and whether a range one byte
    // shorter is answered with 0 and untouched.
    pub fn is_right(self) -> bool {
        let long = self.sheet.len();
        if long == 0 {
            return false;
        }
        let mut page = [BLANK; PAGE];
        self.prints(&mut page, PAGE, self.sheet)
            && self.prints(&mut page, long, self.sheet)
            && self.prints(&mut page, long - 1, b"")
    }
}
