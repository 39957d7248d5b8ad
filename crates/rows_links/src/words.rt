//! The words of a line.

/// What is left of a line. A word `-` says that there is none.
#[derive(Clone, Copy)]
pub struct Words<'a> {
    left: &'a str,
}

impl<'a> Words<'a> {
    /// All of a line.
    pub fn of(line: &'a str) -> Words<'a> {
        Words { left: line }
    }

    /// The next word.
    pub fn word(&mut self) -> &'a str {
        let (word, left) = self.left.split_once(' ').unwrap_or((self.left, ""));
        self.left = left;
        word
    }

    /// A number to 4294967295.
    pub fn number(&mut self) -> anyhow::Result<u32> {
        Ok(self.word().parse::<u32>()?)
    }

    /// A number of eight bytes.
    pub fn long(&mut self) -> anyhow::Result<u64> {
        Ok(self.word().parse::<u64>()?)
    }

    /// A number, if there is one.
    pub fn number_if_any(&mut self) -> anyhow::Result<Option<u32>> {
        match self.word() {
            "-" => Ok(None),
            word => Ok(Some(word.parse::<u32>()?)),
        }
    }

    /// A number of eight bytes, if there is one.
    pub fn long_if_any(&mut self) -> anyhow::Result<Option<u64>> {
        match self.word() {
            "-" => Ok(None),
            word => Ok(Some(word.parse::<u64>()?)),
        }
    }

    /// `true` or `false`.
    pub fn flag(&mut self) -> anyhow::Result<bool> {
        match self.flag_if_any()? {
            Some(flag) => Ok(flag),
            None => Err(anyhow::anyhow!("no flag")),
        }
    }

    /// `true` or `false`, if there is one.
    pub fn flag_if_any(&mut self) -> anyhow::Result<Option<bool>> {
        match self.word() {
            "-" => Ok(None),
            "true" => Ok(Some(true)),
            "false" => Ok(Some(false)),
            _ => Err(anyhow::anyhow!("no flag")),
        }
    }
}
