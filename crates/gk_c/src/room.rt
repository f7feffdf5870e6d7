//! Writing a text into the caller's room.
ghost use Rattle.std.specs.Prelude.{◌≡◌, length};
ghost use Rattle.gk_c.specs.Room.{put_over};

/// Writes a text over the beginning of the room, as far as there is room, and returns the length of the whole text.
pub fn put_out(text: &[u8], room: &mut [u8]) -> usize
    ensures count { result ≡ length text.now }
    ensures written { room.new ≡ put_over text.now room.old }
{
    let count = text.len().min(room.len());
    room[..count].copy_from_slice(&text[..count]);
    text.len()
}
