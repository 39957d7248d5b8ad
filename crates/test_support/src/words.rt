//! Words of a line, and numbers.

/// The line without the note that stands for readers after ` ;`.
pub fn without_note(line: &str) -> &str {
    match line.split_once(';') {
        Some((call, _)) => call.trim_end(),
        None => line,
    }
}

/// A word, and what follows it after one space.
pub fn word(line: &str) -> (&str, &str) {
    line.split_once(' ').unwrap_or((line, ""))
}

/// A number to 4294967295.
pub fn number(text: &str) -> anyhow::Result<u32> {
    Ok(text.parse::<u32>()?)
}

/// A channel.
pub fn channel(text: &str) -> anyhow::Result<u16> {
    Ok(text.parse::<u16>()?)
}
