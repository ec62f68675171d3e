//! Texts, in place where they are short and else shared.
ghost use Rattle.std.specs.Prelude.{◌≡◌, ◌≤◌, length, string_bytes, IfOk, ◌==◌};
ghost use Rattle.pv_value.specs.WellFormed.{IsText};

use crate::{Kept, NoMemory, SHORT, Text};
use std::alloc::Global;
use std::sync::ArcStr;

impl Text {
    /// The same text.
    #[inline(always)]
    pub fn from_str(alloc: Global, text: &str) -> Result<Text, NoMemory>
        ensures { IfOk result (λ t. t ≡ text.now) }
    {
        if text.len() <= SHORT {
            return Ok(short(text));
        }
        let text = ArcStr::from_str(alloc, text)?;
        Ok(Text {
            kept: Kept::Long(text),
        })
    }

    pub fn from_string(string: String) -> Result<Text, NoMemory>
        ensures { IfOk result (λ t. t ≡ string_bytes string) }
    {
        if string.len() <= SHORT {
            return Ok(short(string.as_str()));
        }
        let text = ArcStr::from_string(string)?;
        Ok(Text {
            kept: Kept::Long(text),
        })
    }

    pub fn as_str(&self) -> &str
        ensures same { result.now ≡ self.now }
        ensures text { IsText self.now }
    {
        match &self.kept {
            Kept::Short(n, bytes) => unsafe {
                std::str::from_utf8_unchecked(&bytes[..usize::from(*n)])
            },
            Kept::Long(text) => text.as_str(),
        }
    }

    pub fn as_bytes(&self) -> &[u8]
        ensures same { result.now ≡ self.now }
        ensures text { IsText self.now }
    {
        self.as_str().as_bytes()
    }

    /// How many bytes there are.
    pub fn len(&self) -> usize
        ensures { result ≡ length self.now }
    {
        self.as_bytes().len()
    }

    pub fn is_empty(&self) -> bool
        ensures { result ≡ (length self.now == 0) }
    {
        self.as_bytes().is_empty()
    }

    /// An equal text, which shares its bytes or holds them in place. It takes no memory, but fails
    /// where there are as many copies as can be counted.
    pub fn copy(&self) -> Result<Text, NoMemory>
        ensures { IfOk result (λ t. t ≡ self.now) }
    {
        let kept = match &self.kept {
            Kept::Short(n, bytes) => Kept::Short(*n, *bytes),
            Kept::Long(text) => Kept::Long(text.clone()?),
        };
        Ok(Text { kept })
    }
}

/// A text that stands in place.
#[inline(always)]
fn short(text: &str) -> Text
    requires { length text.now ≤ 22 }
    ensures { result ≡ text.now }
{
    let n = text.len();
    let mut bytes = [0u8; SHORT];
    let place = &mut bytes[..n];
    place.copy_from_slice(text.as_bytes());
    Text {
        kept: Kept::Short(n as u8, bytes),
    }
}
