// Byte strings in lowercase hex; `-` is the one of no bytes.

// The byte string that a word spells, put at the start of the room, and the rest of the room.
pub fn decode<'a>(word: &[u8], room: &'a mut [u8]) -> Option<(&'a [u8], &'a mut [u8])> {
    let digits: &[u8] = match word {
        [] => return None,
        b"-" => &[],
        _ => word,
    };
    let (pairs, []) = digits.as_chunks::<2>() else {
        return None;
    };
    let (bytes, rest) = room.split_at_mut_checked(pairs.len())?;
    for (byte, [high, low]) in bytes.iter_mut().zip(pairs) {
        *byte = digit(*high)? << 4 | digit(*low)?;
    }
    Some((bytes, rest))
}

fn digit(b: u8) -> Option<u8> {
    match b {
        b'0'..=b'9' => Some(b - b'0'),
        b'a'..=b'f' => Some(b - b'a' + 10),
        _ => None,
    }
}
