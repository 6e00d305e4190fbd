//! Files in memory, by name.
ghost use Rattle.std.specs.Prelude.{◌≡◌, min, length, take, is_some, position};
ghost use Rattle.std.specs.Option.{option_copied};
ghost use Rattle.emtp_io.specs.held.Files.{is_named, file_named, unread_of};

/// The place of the file of this name.
pub fn find(files: &[(String, Vec<u8>)], name: &str) -> Option<usize>
    ensures bytes { unread_of files.now result 0 ≡ file_named files.now name.now }
    ensures there { is_some result ≡ is_some (file_named files.now name.now) }
{
    first_named(files, name)
}

fn first_named(files: &[(String, Vec<u8>)], name: &str) -> Option<usize>
    ensures { result ≡ position (is_named name.now) files.now }
{
    files.iter().position(|file| file.0.as_str() == name)
}

/// The bytes of the file at this place, from a position on.
#[tactic(auto, using(crate::proofs::FilesLemmas::places))]
pub fn rest_of(files: &[(String, Vec<u8>)], opened: Option<usize>, position: usize) -> Option<&[u8]>
    ensures { option_copied result ≡ unread_of files.now opened position }
{
    match opened {
        Some(at) if at < files.len() => {
            let bytes = &files[at].1;
            Some(&bytes[position.min(bytes.len())..])
        }
        _ => None,
    }
}

/// Copies the first bytes of `from`, at most `most`, to the start of `to`, and answers how many.
pub fn copy_front(to: &mut [u8], from: &[u8], most: usize) -> usize
    ensures count { result ≡ min (min (length from.now) (length to.new)) most }
    ensures copied { take result to.new ≡ take result from.now }
{
    let count = from.len().min(to.len()).min(most);
    to[..count].copy_from_slice(&from[..count]);
    count
}
