//! Numbers among the words.

ghost use Rattle.std.specs.Prelude.{◌≡◌, ◌≤◌, IfSome};
ghost use Rattle.hb_jobs.specs.Numbers.{digits_alone, is_number, number_of};

// Whether each byte is a digit.
fn all_digits(bytes: &[u8]) -> bool
    ensures { result ≡ digits_alone bytes.now }
{
    bytes.iter().all(|byte| *byte >= 48 && *byte <= 57)
}

// Whether the text has 1 to 10 digits and nothing else.
fn has_number_form(text: &str) -> bool
    ensures { result ≡ is_number text.now }
{
    let digits = all_digits(text.as_bytes());
    let count = text.len();
    1 <= count && count <= 10 && digits
}

/// The number that a text of 1 to 10 digits writes, where it is in the range.
pub fn number_in(text: &str, least: u32, most: u32) -> Option<u32>
    ensures value { result ≡ number_of least most text.now }
    ensures range { IfSome result (λ n. (least ≤ n) × (n ≤ most)) }
{
    if !has_number_form(text) {
        return None;
    }
    match text.parse::<u32>() {
        Ok(number) => {
            if least <= number && number <= most {
                Some(number)
            } else {
                None
            }
        }
        Err(_) => None,
    }
}
