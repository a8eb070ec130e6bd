//! Writes lists as texts.
ghost use Rattle.std.specs.Prelude.{◌≡◌, ◌++◌, ◌∷◌, [], IfOk, OnOk, decimal, flat_map, map};
ghost use Rattle.std.specs.String.{string_bytes};
ghost use Rattle.pack_lists.specs.Lists.{listed};
ghost use Rattle.pack_lists.specs.Texts.{boot_text, edition_word, line_text, list_text, member_text, owner_word, permissions_word, root_text, sizes_text, time_text};

use crate::list::PackList;
use crate::member_lines::MemberKind;
use crate::members::{
    HostPath, ListedMember, ListedOwner, ListedPath, NodeMarks, RootMarks, VolumeSizes,
};
use std::alloc::{AllocError, Global};
use vol_layout::{DeviceId, Edition};

/// Returns the text of a list: a line for each thing that it has, with the members in their order. Numbers are in full, and the times too, but those of links.
///
/// [`read_list`](crate::read_list) reads it as this list if each path, in the volume and outside it, is a word of a list
/// ([`is_list_word`](crate::is_list_word)), permissions are at most octal 7777, and the time of each link is that of the volume. Takes memory for the text, and
/// costs its length.
#[tactic(auto, unfolding(crate::specs::Texts::list_text))]
pub fn list_text(alloc: Global, list: &PackList) -> Result<Vec<u8>, AllocError>
    ensures { IfOk result (λ text. text.items ≡ list_text (listed list.now)) }
{
    let mut text = Vec::new(alloc);
    push_sizes(alloc, &mut text, list.volume.sizes)?;
    push_time(alloc, &mut text, list.volume.time)?;
    push_boot(&mut text, &list.boot)?;
    push_root(alloc, &mut text, list.root)?;
    push_members(alloc, &mut text, &list.members)?;
    Ok(text)
}

/// Appends the line of the sizes of a volume.
fn push_sizes(alloc: Global, text: &mut Vec<u8>, sizes: VolumeSizes) -> Result<(), AllocError>
    ensures { OnOk result (text.new.items ≡ text.old.items ++ sizes_text sizes) }
{
    let VolumeSizes {
        edition,
        blocks,
        list_blocks,
    } = sizes;
    let edition = edition_word(edition).as_bytes();
    let blocks = format!(in alloc; "{blocks}")?;
    let list_blocks = format!(in alloc; "{list_blocks}")?;
    push_line(
        text,
        "volume",
        &[edition, blocks.as_bytes(), list_blocks.as_bytes()],
    )
}

/// Returns the word for an edition.
fn edition_word(edition: Edition) -> &'static str
    ensures { result.now ≡ edition_word edition }
{
    match edition {
        Edition::V6 => "6",
        Edition::V7 => "7",
    }
}

/// Appends the line of the time.
fn push_time(alloc: Global, text: &mut Vec<u8>, time: u32) -> Result<(), AllocError>
    ensures { OnOk result (text.new.items ≡ text.old.items ++ time_text time) }
{
    let seconds = format!(in alloc; "{time}")?;
    push_line(text, "time", &[seconds.as_bytes()])
}

/// Appends the line of the file with the boot block, if there is one.
fn push_boot(text: &mut Vec<u8>, boot: &Option<HostPath>) -> Result<(), AllocError>
    ensures { OnOk result (text.new.items ≡ text.old.items ++ boot_text boot.now) }
{
    match boot {
        None => Ok(()),
        Some(file) => push_line(text, "boot", &[file.as_str().as_bytes()]),
    }
}

/// Appends the line of the marks of the root, if there are some.
fn push_root(alloc: Global, text: &mut Vec<u8>, root: Option<RootMarks>) -> Result<(), AllocError>
    ensures { OnOk result (text.new.items ≡ text.old.items ++ root_text root) }
{
    let Some(root) = root else {
        return Ok(());
    };
    let permissions = permissions_word(alloc, root.permissions)?;
    let owner = owner_word(alloc, root.owner)?;
    push_line(text, "root", &[permissions.as_bytes(), owner.as_bytes()])
}

/// Returns permissions in octal digits.
fn permissions_word(alloc: Global, permissions: u16) -> Result<String, AllocError>
    ensures { IfOk result (λ word. string_bytes word ≡ permissions_word permissions) }
{
    format!(in alloc; "{permissions:o}")
}

/// Returns a user and a group, with a colon between them.
fn owner_word(alloc: Global, owner: ListedOwner) -> Result<String, AllocError>
    ensures { IfOk result (λ word. string_bytes word ≡ owner_word owner) }
{
    let ListedOwner { uid, gid } = owner;
    format!(in alloc; "{uid}:{gid}")
}

/// Appends the lines of members.
fn push_members(
    alloc: Global,
    text: &mut Vec<u8>,
    members: &[ListedMember],
) -> Result<(), AllocError>
    ensures { OnOk result (text.new.items ≡ text.old.items ++ flat_map member_text members.now) }
{
    'members: for member in members {
        push_member(alloc, text, member)?;
    }
    Ok(())
}

/// Appends the line of a member.
fn push_member(alloc: Global, text: &mut Vec<u8>, member: &ListedMember) -> Result<(), AllocError>
    ensures { OnOk result (text.new.items ≡ text.old.items ++ member_text member.now) }
{
    let name = MemberKind::of(member).word();
    match member {
        ListedMember::Directory { path, marks } => push_directory(alloc, text, name, path, *marks),
        ListedMember::File { path, marks, file } => {
            push_file(alloc, text, name, path, *marks, file.as_str())
        }
        ListedMember::Device {
            path,
            marks,
            device,
        } => push_device(alloc, text, name, path, *marks, *device),
        ListedMember::Link { path, target, .. } => {
            push_line(text, name, &[path.as_slice(), target.as_slice()])
        }
    }
}

/// The words for the marks of a member.
#[derive(Drop)]
struct MarkWords {
    permissions: String,
    owner: String,
    modified: String,
}

impl MarkWords {
    /// Returns the words for some marks.
    fn of(alloc: Global, marks: NodeMarks) -> Result<MarkWords, AllocError>
        ensures permissions { IfOk result (λ words. string_bytes words.permissions ≡ permissions_word marks.permissions) }
        ensures owner { IfOk result (λ words. string_bytes words.owner ≡ owner_word marks.owner) }
        ensures modified { IfOk result (λ words. string_bytes words.modified ≡ decimal marks.modified) }
    {
        let permissions = permissions_word(alloc, marks.permissions)?;
        let owner = owner_word(alloc, marks.owner)?;
        let modified = marks.modified;
        let modified = format!(in alloc; "{modified}")?;
        Ok(MarkWords {
            permissions,
            owner,
            modified,
        })
    }
}

/// Appends the line of a directory.
fn push_directory(
    alloc: Global,
    text: &mut Vec<u8>,
    name: &str,
    path: &ListedPath,
    marks: NodeMarks,
) -> Result<(), AllocError>
    ensures { OnOk result (text.new.items ≡ text.old.items ++ line_text name.now (path.now ∷ permissions_word marks.permissions ∷ owner_word marks.owner ∷ decimal marks.modified ∷ [])) }
{
    let marks = MarkWords::of(alloc, marks)?;
    push_line(
        text,
        name,
        &[
            path.as_slice(),
            marks.permissions.as_bytes(),
            marks.owner.as_bytes(),
            marks.modified.as_bytes(),
        ],
    )
}

/// Appends the line of a regular file.
fn push_file(
    alloc: Global,
    text: &mut Vec<u8>,
    name: &str,
    path: &ListedPath,
    marks: NodeMarks,
    file: &str,
) -> Result<(), AllocError>
    ensures { OnOk result (text.new.items ≡ text.old.items ++ line_text name.now (path.now ∷ permissions_word marks.permissions ∷ owner_word marks.owner ∷ file.now ∷ decimal marks.modified ∷ [])) }
{
    let marks = MarkWords::of(alloc, marks)?;
    push_line(
        text,
        name,
        &[
            path.as_slice(),
            marks.permissions.as_bytes(),
            marks.owner.as_bytes(),
            file.as_bytes(),
            marks.modified.as_bytes(),
        ],
    )
}

/// Appends the line of a special file.
fn push_device(
    alloc: Global,
    text: &mut Vec<u8>,
    name: &str,
    path: &ListedPath,
    marks: NodeMarks,
    device: DeviceId,
) -> Result<(), AllocError>
    ensures { OnOk result (text.new.items ≡ text.old.items ++ line_text name.now (path.now ∷ permissions_word marks.permissions ∷ owner_word marks.owner ∷ decimal device.major ∷ decimal device.minor ∷ decimal marks.modified ∷ [])) }
{
    let DeviceId { major, minor, .. } = device;
    let marks = MarkWords::of(alloc, marks)?;
    let major = format!(in alloc; "{major}")?;
    let minor = format!(in alloc; "{minor}")?;
    push_line(
        text,
        name,
        &[
            path.as_slice(),
            marks.permissions.as_bytes(),
            marks.owner.as_bytes(),
            major.as_bytes(),
            minor.as_bytes(),
            marks.modified.as_bytes(),
        ],
    )
}

/// Appends a line: its first word, the other words with a space before each, and a newline.
fn push_line(text: &mut Vec<u8>, name: &str, words: &[&[u8]]) -> Result<(), AllocError>
    ensures { OnOk result (text.new.items ≡ text.old.items ++ line_text name.now (map (λ word. word.now) words.now)) }
{
    text.extend_from_slice(name.as_bytes())?;
    push_words(text, words)?;
    Ok(text.push(b'\n')?)
}

/// Appends words, with a space before each.
fn push_words(text: &mut Vec<u8>, words: &[&[u8]]) -> Result<(), AllocError>
    ensures { OnOk result (text.new.items ≡ text.old.items ++ flat_map (λ word. 32 ∷ word.now) words.now) }
{
    'words: for word in words {
        push_word(text, word)?;
    }
    Ok(())
}

/// Appends a word, with a space before it.
fn push_word(text: &mut Vec<u8>, word: &[u8]) -> Result<(), AllocError>
    ensures { OnOk result (text.new.items ≡ text.old.items ++ 32 ∷ word.now) }
{
    text.push(b' ')?;
    text.extend_from_slice(word)?;
    Ok(())
}
