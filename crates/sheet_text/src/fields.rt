// A number in its columns, read and written.
ghost use Rattle.std.specs.Prelude.{◌≡◌, ◌+◌, ◌*◌, ◌%◌, ◌<◌, ◌≤◌, length};
ghost use Rattle.sheet_text.specs.Columns.{blank, column, stepped, seen_of, value_of, SmallSeen, FieldIs};

/// What the bytes of a field so far are.
#[derive(Clone, Copy)]
enum Seen {
    Blank,
    Number(u32),
    Bad,
}

/// What one more byte makes of them.
fn step(seen: Seen, b: u8) -> Seen
    requires { SmallSeen seen }
    ensures { result ≡ stepped seen b }
{
    match (seen, b) {
        (Seen::Blank, b' ') => Seen::Blank,
        (Seen::Blank, b'0'..=b'9') => Seen::Number(u32::from(b - b'0')),
        (Seen::Number(n), b'0'..=b'9') if n > 0 => Seen::Number(n * 10 + u32::from(b - b'0')),
        _ => Seen::Bad,
    }
}

/// What the bytes of a whole field are.
fn seen_in(field: &[u8]) -> Seen
    requires { length field.now ≤ 9 }
    ensures { result ≡ seen_of field.now }
{
    field.iter().fold(Seen::Blank, |seen, b| step(seen, *b))
}

/// The number in a field: right-justified after spaces, with no leading zero.
pub(super) fn parse_field(field: &[u8]) -> Option<u32>
    requires { (0 < length field.now) × (length field.now ≤ 9) }
    ensures value { result ≡ value_of (seen_of field.now) }
    ensures exact { FieldIs field.now result }
{
    match seen_in(field) {
        Seen::Number(n) => Some(n),
        _ => None,
    }
}

/// Whether a field holds spaces alone.
pub(super) fn is_blank(field: &[u8]) -> bool
    ensures { result ≡ blank field.now }
{
    field.iter().all(|b| *b == b' ')
}

fn last_digit(n: u32) -> u8
    ensures { result ≡ 48 + n % 10 }
{
    b'0' + (n % 10) as u8
}

/// Writes the number right-justified after spaces, over the whole of `out`.
pub(super) fn put_field(out: &mut [u8], n: u32)
    ensures { out.new ≡ column (length out.old) n }
{
    let Some((last, front)) = out.split_last_mut() else {
        return;
    };
    *last = last_digit(n);
    if n < 10 {
        front.fill(b' ');
    } else {
        put_field(front, n / 10);
    }
}
