// Texts in which a star stands for any text.

/// Whether the bytes are a text that the pattern fits: each `*` of it stands for any text, also for none.
pub(crate) fn fits(bytes: &[u8], pattern: &str) -> bool {
    let Ok(text) = std::str::from_utf8(bytes) else {
        return false;
    };
    let Some((first, others)) = pattern.split_once('*') else {
        return text == pattern;
    };
    let (middle, last) = others.rsplit_once('*').unwrap_or(("", others));
    let Some(mut left) = text.strip_prefix(first) else {
        return false;
    };
    for part in middle.split('*') {
        let Some((_, behind)) = left.split_once(part) else {
            return false;
        };
        left = behind;
    }
    left.ends_with(last)
}
