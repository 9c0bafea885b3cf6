// Packets: the given bytes, then 0xFF up to 188.
pub fn filled(bytes: &[u8]) -> [u8; 188] {
    let mut p = [0xFF; 188];
    if bytes.len() <= 188 {
        p[..bytes.len()].copy_from_slice(bytes);
    }
    p
}
