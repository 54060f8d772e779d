//! The bytes of answers (SPC-5, SBC-4). All values are this project's own choice.
ghost use Rattle.std.specs.Prelude.{◌≡◌, ◌≤◌, ◌<◌, ◌^◌, ◌/◌, ◌%◌};
ghost use Rattle.vv_lun.specs.Answers.{volume_data, endpoint_data, unbound_data, page_list, digit, digits, serial_page, capacity_10, capacity_16, volume_page, endpoint_page};

/// Standard INQUIRY data of a volume.
#[tactic(auto, unfolding(crate::specs::Answers::standard_data))]
pub(crate) fn volume_data() -> [u8; 36]
    ensures { result ≡ volume_data }
{
    *b"\x00\x40\x07\x02\x1f\x00\x00\x02VVPROJ  VIRTUAL VOLUME  0001"
}

/// Standard INQUIRY data of a protocol endpoint.
#[tactic(auto, unfolding(crate::specs::Answers::standard_data))]
pub(crate) fn endpoint_data() -> [u8; 36]
    ensures { result ≡ endpoint_data }
{
    *b"\x00\x40\x07\x02\x1f\x00\x00\x02VVPROJ  PROTOCOL ENDPT  0001"
}

/// Standard INQUIRY data where nothing is bound.
#[tactic(auto, unfolding(crate::specs::Answers::standard_data))]
pub(crate) fn unbound_data() -> [u8; 36]
    ensures { result ≡ unbound_data }
{
    *b"\x7f\x00\x07\x02\x1f\x00\x00\x02VVPROJ                  0001"
}

/// Page 00h of INQUIRY.
pub(crate) fn page_list() -> [u8; 6]
    ensures { result ≡ page_list }
{
    [0x00, 0x00, 0x00, 0x02, 0x00, 0x80]
}

/// The character of a hexadecimal digit.
fn digit(n: u8) -> u8
    requires { n < 16 }
    ensures { result ≡ digit n }
{
    if n < 10 { b'0' + n } else { b'a' - 10 + n }
}

/// The first digit of a byte.
fn high(byte: u8) -> u8
    ensures { result ≡ digit (byte / 16) }
{
    digit(byte / 16)
}

/// The second digit of a byte.
fn low(byte: u8) -> u8
    ensures { result ≡ digit (byte % 16) }
{
    digit(byte % 16)
}

/// Sixteen hexadecimal digits.
#[tactic(auto, unfolding(crate::specs::Answers::digits))]
fn digits(number: u64) -> [u8; 16]
    ensures { result ≡ digits number }
{
    let [a, b, c, d, e, f, g, h] = number.to_be_bytes();
    [
        high(a),
        low(a),
        high(b),
        low(b),
        high(c),
        low(c),
        high(d),
        low(d),
        high(e),
        low(e),
        high(f),
        low(f),
        high(g),
        low(g),
        high(h),
        low(h),
    ]
}

/// Page 80h of INQUIRY of a volume.
pub(crate) fn volume_page(number: u64) -> [u8; 21]
    ensures { result ≡ volume_page number }
{
    serial_page(b'v', number)
}

/// Page 80h of INQUIRY of an endpoint.
pub(crate) fn endpoint_page(number: u16) -> [u8; 21]
    ensures { result ≡ endpoint_page number }
{
    serial_page(b'p', u64::from(number))
}

/// Page 80h of INQUIRY: a letter and the digits of a number.
fn serial_page(letter: u8, number: u64) -> [u8; 21]
    ensures { result ≡ serial_page letter number }
{
    let mut page = [0; 21];
    page[1] = 0x80;
    page[3] = 0x11;
    page[4] = letter;
    page[5..].copy_from_slice(&digits(number));
    page
}

/// The data of READ CAPACITY(10).
pub(crate) fn capacity_10(blocks: u64) -> [u8; 8]
    requires some { 1 ≤ blocks }
    requires few { blocks ≤ 2 ^ 31 }
    ensures { result ≡ capacity_10 blocks }
{
    let [a, b, c, d] = ((blocks - 1) as u32).to_be_bytes();
    [a, b, c, d, 0, 0, 2, 0]
}

/// The data of READ CAPACITY(16).
pub(crate) fn capacity_16(blocks: u64) -> [u8; 32]
    requires { 1 ≤ blocks }
    ensures { result ≡ capacity_16 blocks }
{
    let [a, b, c, d, e, f, g, h] = (blocks - 1).to_be_bytes();
    [
        a, b, c, d, e, f, g, h, 0, 0, 2, 0, 0, 0, 0xc0, 0, 0, 0, 0, 0, 0, 0, 0, 0, 0, 0, 0, 0, 0,
        0, 0, 0,
    ]
}
