// The fields of a line, parted by single spaces, and their kinds, a letter each:
//   u, i, h   a whole number that 64, 32 or 16 bits hold
//   c, b      a count of listed keys; yes or no, as 1 and 0
//   d, f      an f64 or an f32 by its bits, in hexadecimal digits
//   o         a whole number or `none`; the fields of this kind are all `none` or none is
//   e         an f64 or `none`

// The arguments of a call, 0 beyond the last. `none` says whether those that may be missing are. The
// next field of the line starts at `next`, past the line's end where none is left.
#[derive(Clone, Copy)]
pub(crate) struct Args {
    pub(crate) next: usize,
    pub(crate) none: bool,
    pub(crate) first: u64,
    pub(crate) second: u64,
    pub(crate) third: u64,
    pub(crate) fourth: u64,
    pub(crate) fifth: u64,
    pub(crate) sixth: u64,
    pub(crate) seventh: u64,
    pub(crate) eighth: u64,
    pub(crate) ninth: u64,
}

impl Args {
    // An argument that may be missing.
    pub(crate) fn given(self, value: u64) -> Option<u64> {
        if self.none { None } else { Some(value) }
    }
}

// The low bits: all of a number that was read with that bound.
pub(crate) fn low32(n: u64) -> u32 {
    (n % 0x1_0000_0000) as u32
}

pub(crate) fn low16(n: u64) -> u16 {
    (n % 0x1_0000) as u16
}

// A line whose fields are read from the front: the next one starts at `at`, past the end where none is left.
#[derive(Clone, Copy)]
pub(crate) struct Fields<'a> {
    line: &'a [u8],
    at: usize,
}

// The largest whole number of a kind.
fn largest(kind: u8) -> u64 {
    match kind {
        b'i' => 0xffff_ffff,
        b'h' => 0xffff,
        b'c' => 256,
        b'b' => 1,
        _ => u64::MAX,
    }
}

// The number of a field, if it is good: a bit pattern has all its digits, a whole number 1 to 20.
fn number_of(field: &[u8], kind: u8) -> Option<u64> {
    let n = match kind {
        b'd' | b'e' => text::hex(field, 16)?,
        b'f' => text::hex(field, 8)?,
        _ if 20 < field.len() => return None,
        _ => text::decimal(field)?,
    };
    if largest(kind) < n { None } else { Some(n) }
}

// Whether a field of a kind may be `none`.
fn may_miss(kind: u8) -> bool {
    kind == b'o' || kind == b'e'
}

impl<'a> Fields<'a> {
    // The fields that start at `at`.
    pub(crate) fn new(line: &'a [u8], at: usize) -> Fields<'a> {
        Fields { line, at }
    }

    // Whether no field is left.
    pub(crate) fn is_over(&self) -> bool {
        self.line.len() < self.at
    }

    // The next field, if one is left.
    fn field(&mut self) -> Option<&'a [u8]> {
        let rest = self.line.get(self.at..)?;
        let len = text::index_of(rest, b' ');
        self.at = self.at.saturating_add(len).saturating_add(1);
        Some(&rest[..len])
    }

    // The number of the next field, if it is good.
    pub(crate) fn number(&mut self, kind: u8) -> Option<u64> {
        number_of(self.field()?, kind)
    }

    // The number of the next field, if it is good, or `none`.
    fn number_or_none(&mut self, kind: u8) -> Option<Option<u64>> {
        let field = self.field()?;
        if field == b"none".as_slice() {
            return Some(None);
        }
        Some(Some(number_of(field, kind)?))
    }
}

// The fields of these kinds, at most nine, from `at` on, if they are good.
pub(crate) fn args_of(line: &[u8], at: usize, kinds: &[u8]) -> Option<Args> {
    let mut fields = Fields::new(line, at);
    let mut values = [0; 9];
    let mut none = None;
    for (value, kind) in values.iter_mut().zip(kinds) {
        if may_miss(*kind) {
            let number = fields.number_or_none(*kind)?;
            if none == Some(number.is_some()) {
                return None;
            }
            none = Some(number.is_none());
            *value = number.unwrap_or(0);
        } else {
            *value = fields.number(*kind)?;
        }
    }
    let [
        first,
        second,
        third,
        fourth,
        fifth,
        sixth,
        seventh,
        eighth,
        ninth,
    ] = values;
    Some(Args {
        next: fields.at,
        none: none == Some(true),
        first,
        second,
        third,
        fourth,
        fifth,
        sixth,
        seventh,
        eighth,
        ninth,
    })
}

// The same where they end the line.
pub(crate) fn all_of(line: &[u8], at: usize, kinds: &[u8]) -> Option<Args> {
    let args = args_of(line, at, kinds)?;
    if line.len() < args.next {
        Some(args)
    } else {
        None
    }
}

// The so many numbers, 512 at most, that a line lists from there to its end, if it does.
pub(crate) fn words_of(line: &[u8], from: usize, count: usize) -> Option<[u64; 512]> {
    let mut fields = Fields::new(line, from);
    let mut words = [0; 512];
    for word in words.iter_mut().take(count) {
        *word = fields.number(b'u')?;
    }
    if fields.is_over() { Some(words) } else { None }
}
