//! Codes of colours in lines: `ESC [ 36 m` begins one, `ESC [ 39 m` ends it.
use sourcemap_words::Nesting;
use std::alloc::AllocError;

/// What codes for terminals begin with: as it is, and as strings of JSON and of JavaScript write it. In a string of a string more
/// backslashes are in front (`Nesting::slashes`).
const STARTS: [&str; 5] = ["\u{1b}[", "\\u001b[", "\\u001B[", "\\x1b[", "\\x1B["];

/// The numbers of the colour that a text goes on with behind the start of a code; None if it is another code.
fn numbers_of(text: &str) -> Option<&str> {
    let (numbers, _) = text.split_once('m')?;
    let is_colour = numbers.bytes().all(|byte| byte.is_ascii_digit()
        || byte == b';'
        || byte == b':');
    if is_colour { Some(numbers) } else { None }
}

/// Whether a number ends what others begin.
fn is_end(number: &str) -> bool {
    let is_plain = number.len() == 2 && number.starts_with('2');
    is_plain || matches!(number, "" | "0" | "39" | "49")
}

fn are_ends(numbers: &str) -> bool {
    numbers.split(';').all(|number| is_end(number))
}

/// Which codes of colours are meant.
#[derive(Clone, Copy)]
pub enum Colours<'t> {
    All,
    /// Those that end a colour, but for one that this text begins with.
    Ends(&'t str),
}

impl<'t> Colours<'t> {
    fn has(&self, slashes: &str, start: &str, numbers: &str) -> bool {
        match self {
            Colours::All => true,
            Colours::Ends(behind) => {
                let behind = behind.strip_prefix(slashes).unwrap_or(behind);
                let next = match behind.strip_prefix(start) {
                    Some(rest) => numbers_of(rest),
                    None => None,
                };
                are_ends(numbers) && next != Some(numbers)
            }
        }
    }

    /// Appends those of a text whose codes have this start.
    fn push_with(
        &self,
        text: &str,
        slashes: &str,
        start: &str,
        out: &mut String,
    ) -> Result<(), AllocError> {
        let Some((_, codes)) = text.split_once(start) else {
            return Ok(());
        };
        for code in codes.split(start) {
            if let Some(numbers) = numbers_of(code)
                && self.has(slashes, start, numbers)
            {
                out.push_str(slashes)?;
                out.push_str(start)?;
                out.push_str(numbers)?;
                out.push('m')?;
            }
        }
        Ok(())
    }

    /// Appends those of a text of a line, which is in these strings.
    pub fn push(&self, text: &str, nesting: Nesting, out: &mut String) -> Result<(), AllocError> {
        for start in STARTS {
            let slashes = if start.starts_with('\\') {
                nesting.slashes()
            } else {
                ""
            };
            self.push_with(text, slashes, start, out)?;
        }
        Ok(())
    }
}

/// Whether a text has codes for terminals.
pub fn has_codes(text: &str) -> bool {
    STARTS.iter().any(|start| text.contains(*start))
}
