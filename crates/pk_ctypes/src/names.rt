// Names.

ghost use Rattle.std.specs.Prelude.{◌≡◌, IfOk};
ghost use Rattle.std.specs.Str.{IsUtf8};
ghost use Rattle.std.specs.Str.Lossy.{utf8_lossy};

use std::alloc::{AllocError, Global};
use std::fmt;
use std::marker::Model;

/// A name. Contracts see its bytes, which are text.
#[derive(Drop)]
pub struct Name {
    text: String,
}

impl Model for Name {
    ghost use Rattle.std.specs.Prelude.{List, ℕ, string_bytes};

    ghost Value = { List ℕ };

    ghost view = { λ n. string_bytes n.text };
}

impl Name {
    /// The name of these bytes. What is no UTF-8 in them becomes U+FFFD, as by `String::from_utf8_lossy`: names are printed as text.
    pub fn new(alloc: Global, bytes: &[u8]) -> Result<Name, AllocError>
        ensures exact { IfOk result (λ name. IsUtf8 bytes.now → name ≡ bytes.now) }
        ensures lossy { IfOk result (λ name. name ≡ utf8_lossy bytes.now) }
    {
        let text = String::from_utf8_lossy(alloc, bytes)?;
        Ok(Name { text })
    }

    pub fn copy(&self) -> Result<Name, AllocError>
        ensures { IfOk result (λ name. name ≡ self.now) }
    {
        Ok(Name {
            text: self.text.clone()?,
        })
    }

    pub fn as_str(&self) -> &str
        ensures { result.now ≡ self.now }
    {
        self.text.as_str()
    }
}

impl fmt::Display for Name {
    ghost use Rattle.std.specs.declared.option.Option.TheVariants.{Some};

    ghost output = { λ n. Some n };

    fn fmt<W: fmt::Write>(&self, f: &mut fmt::Formatter<W>) -> fmt::Result {
        write!(f, "{}", self.text)
    }
}

/// Names in order, as those of a cycle of calls. Contracts see the list of their bytes.
#[derive(Drop)]
pub struct Names {
    names: Vec<Name>,
}

impl Model for Names {
    ghost use Rattle.std.specs.Prelude.{List, ℕ};

    ghost Value = { List (List ℕ) };

    ghost view = { λ n. n.names.items };
}

impl Names {
    /// A copy of each name.
    pub fn new(alloc: Global, list: &[Name]) -> Result<Names, AllocError>
        ensures { IfOk result (λ names. names ≡ list.now) }
    {
        let mut names = Vec::new(alloc);
        for name in list {
            names.push(name.copy()?)?;
        }
        Ok(Names { names })
    }

    pub fn copy(&self) -> Result<Names, AllocError>
        ensures { IfOk result (λ names. names ≡ self.now) }
    {
        Names::new(*self.names.allocator(), self.names.as_slice())
    }

    pub fn as_slice(&self) -> &[Name]
        ensures { result.now ≡ self.now }
    {
        self.names.as_slice()
    }
}

/// The names with a blank between each two.
impl fmt::Display for Names {
    ghost use Rattle.std.specs.declared.option.Option.TheVariants.{Some};
    ghost use Rattle.pk_ctypes.specs.Words.{names_text};

    ghost output = { λ n. Some (names_text n) };

    fn fmt<W: fmt::Write>(&self, f: &mut fmt::Formatter<W>) -> fmt::Result {
        let Some((first, rest)) = self.names.split_first() else {
            return Ok(());
        };
        write!(f, "{first}")?;
        for name in rest {
            write!(f, " {name}")?;
        }
        Ok(())
    }
}
