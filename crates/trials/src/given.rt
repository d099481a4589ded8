// The numbers of a line.
ghost use Rattle.std.specs.Prelude.{◌≡◌, ◌≤◌, length};
ghost use Rattle.trials.specs.Given.{SoundGiven};

// No case has more numbers.
const MOST: usize = 128;

#[derive(Clone, Copy)]
pub struct Given {
    pub numbers: [i64; 128],
    pub count: usize,
}

// The numbers that stand in fields parted by one space, and zeros after them.
pub fn numbers_in(line: &[u8]) -> Given
    ensures { SoundGiven result }
{
    let mut numbers = [0; 128];
    let mut at: usize = 0;
    for count in 0..MOST {
        if line.len() <= at {
            return Given { numbers, count };
        }
        let end = text::field_end(line, at);
        numbers[count] = number(&line[at..end]);
        if end == line.len() {
            return Given {
                numbers,
                count: count + 1,
            };
        }
        at = end + 1;
    }
    Given {
        numbers,
        count: MOST,
    }
}

// What is no number of 64 bits is the mark of a missing one.
fn number(field: &[u8]) -> i64 {
    text::signed_64(text::number_in(field)).unwrap_or(i64::MIN)
}

// A number as it stands where its type holds it, else the largest that it holds.
pub fn octet(n: i64) -> u8 {
    u8::try_from(n).unwrap_or(u8::MAX)
}

pub fn capped(size: u32) -> u8 {
    u8::try_from(size).unwrap_or(u8::MAX)
}

pub fn word(n: i64) -> u16 {
    u16::try_from(n).unwrap_or(u16::MAX)
}

pub fn natural(n: i64) -> u32
    ensures { result ≤ 4294967295 }
{
    u32::try_from(n).unwrap_or(u32::MAX)
}

// How many places an array has, at most 128.
pub fn room(n: i64) -> usize
    ensures { result ≤ 128 }
{
    usize::try_from(n).unwrap_or(MOST).min(MOST)
}

// The numbers as octets, and as codes, and zeros after them.
pub fn octets_from(numbers: &[i64]) -> [u8; 128] {
    let mut octets = [0; 128];
    for (place, n) in octets.iter_mut().zip(numbers) {
        *place = octet(*n);
    }
    octets
}

pub fn codes_from(numbers: &[i64]) -> [u32; 128] {
    let mut codes = [0; 128];
    for (place, n) in codes.iter_mut().zip(numbers) {
        *place = natural(*n);
    }
    codes
}
