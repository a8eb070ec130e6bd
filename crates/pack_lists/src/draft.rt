//! A list in progress: the lines that were read so far.
ghost use Rattle.std.specs.Prelude.{◌≡◌, ◌++◌, ◌∷◌, [], Ok, IfErr, IfOk, OnOk};
ghost use Rattle.line_words.specs.Pieces.{words_of};
ghost use Rattle.pack_lists.specs.Drafts.{blank, drafted, is_comment, wanted_of, with_line, with_member, with_more, with_named, with_sizes, with_time};
ghost use Rattle.pack_lists.specs.Faults.{Tells, TellsLine};
ghost use Rattle.pack_lists.specs.Lists.{finished, listed};
ghost use Rattle.pack_lists.specs.MemberLines.{kind_named};

use crate::faults::{LineFault, ListFault, ListWord};
use crate::list::PackList;
use crate::member_lines::{MemberKind, boot_in, member_in, root_in, sizes_in, time_in};
use crate::members::{HostPath, ListedMember, ListedVolume, RootMarks, VolumeSizes};
use crate::words::flawed;
use line_words::{Pieces, next_word};
use std::alloc::Global;

/// What the first two lines of a list say, as far as they were read.
#[derive(Clone, Copy)]
pub(crate) enum Stage {
    /// Nothing: the next line begins with `volume`.
    Unsized,
    /// The sizes of the volume: the next line begins with `time`.
    Untimed(VolumeSizes),
    /// All of the volume.
    Begun(ListedVolume),
}

/// A list in progress.
#[derive(Drop)]
pub(crate) struct Draft {
    /// What the first two lines say.
    pub(crate) stage: Stage,
    /// The path of the file with the boot block.
    pub(crate) boot: Option<HostPath>,
    /// The permissions and the owner of the root.
    pub(crate) root: Option<RootMarks>,
    /// The members.
    pub(crate) members: Vec<ListedMember>,
}

impl Draft {
    /// Returns the list of which nothing was read yet.
    pub(crate) fn new(alloc: Global) -> Draft
        ensures { drafted result ≡ blank }
    {
        Draft {
            stage: Stage::Unsized,
            boot: None,
            root: None,
            members: Vec::new(alloc),
        }
    }

    /// Reads a line. A line without words says nothing, nor does one whose first word begins with `#`.
    #[tactic(auto, unfolding(crate::specs::Drafts::with_line))]
    pub(crate) fn take_line(&mut self, alloc: Global, line: &[u8]) -> Result<(), LineFault>
        ensures ok { OnOk result (with_line (drafted self.old) line.now ≡ Ok (drafted self.new)) }
        ensures fault { IfErr result (TellsLine (with_line (drafted self.old) line.now)) }
    {
        let mut words = Pieces::of(b' ', line);
        match next_word(&mut words) {
            Some(name) if !is_comment(name) => self.take_words(alloc, name, &mut words),
            _ => Ok(()),
        }
    }

    /// Reads a line that begins with this word.
    fn take_words(
        &mut self,
        alloc: Global,
        name: &[u8],
        words: &mut Pieces<'_>,
    ) -> Result<(), LineFault>
        ensures ok { OnOk result (with_named self.old.stage (drafted self.old) name.now (words_of words.old) ≡ Ok (drafted self.new)) }
        ensures fault { IfErr result (TellsLine (with_named self.old.stage (drafted self.old) name.now (words_of words.old))) }
    {
        match self.stage {
            Stage::Unsized => self.take_sizes(alloc, name, words),
            Stage::Untimed(sizes) => self.take_time(alloc, sizes, name, words),
            Stage::Begun(volume) => self.take_more(alloc, volume, name, words),
        }
    }

    /// Reads the line of the volume's sizes.
    fn take_sizes(
        &mut self,
        alloc: Global,
        name: &[u8],
        words: &mut Pieces<'_>,
    ) -> Result<(), LineFault>
        ensures ok { OnOk result (with_sizes (drafted self.old) name.now (words_of words.old) ≡ Ok (drafted self.new)) }
        ensures fault { IfErr result (TellsLine (with_sizes (drafted self.old) name.now (words_of words.old))) }
    {
        if name != b"volume".as_slice() {
            return Err(flawed(alloc, name, ListWord::Volume));
        }
        self.stage = Stage::Untimed(sizes_in(alloc, words)?);
        Ok(())
    }

    /// Reads the line of the time.
    fn take_time(
        &mut self,
        alloc: Global,
        sizes: VolumeSizes,
        name: &[u8],
        words: &mut Pieces<'_>,
    ) -> Result<(), LineFault>
        ensures ok { OnOk result (with_time sizes (drafted self.old) name.now (words_of words.old) ≡ Ok (drafted self.new)) }
        ensures fault { IfErr result (TellsLine (with_time sizes (drafted self.old) name.now (words_of words.old))) }
    {
        if name != b"time".as_slice() {
            return Err(flawed(alloc, name, ListWord::Time));
        }
        let time = time_in(alloc, words)?;
        self.stage = Stage::Begun(ListedVolume { sizes, time });
        Ok(())
    }

    /// Reads the line of the boot block, of the root, or of a member.
    fn take_more(
        &mut self,
        alloc: Global,
        volume: ListedVolume,
        name: &[u8],
        words: &mut Pieces<'_>,
    ) -> Result<(), LineFault>
        ensures ok { OnOk result (with_more volume (drafted self.old) name.now (words_of words.old) ≡ Ok (drafted self.new)) }
        ensures fault { IfErr result (TellsLine (with_more volume (drafted self.old) name.now (words_of words.old))) }
    {
        if name == b"boot".as_slice() && self.boot.is_none() {
            self.boot = Some(boot_in(alloc, words)?);
            return Ok(());
        }
        if name == b"root".as_slice() && self.root.is_none() {
            self.root = Some(root_in(alloc, words)?);
            return Ok(());
        }
        self.take_member(alloc, volume, name, words)
    }

    /// Reads the line of a member.
    fn take_member(
        &mut self,
        alloc: Global,
        volume: ListedVolume,
        name: &[u8],
        words: &mut Pieces<'_>,
    ) -> Result<(), LineFault>
        ensures ok { OnOk result (with_member volume (drafted self.old) name.now (words_of words.old) (kind_named name.now) ≡ Ok (drafted self.new)) }
        ensures fault { IfErr result (TellsLine (with_member volume (drafted self.old) name.now (words_of words.old) (kind_named name.now))) }
    {
        match MemberKind::named(name) {
            None => Err(flawed(alloc, name, self.wanted())),
            Some(kind) => {
                let member = member_in(alloc, kind, volume.time, words)?;
                push_member(&mut self.members, member)
            }
        }
    }

    /// Returns the form of the word that begins a line after the first two: `boot` and `root` come only once.
    fn wanted(&self) -> ListWord
        ensures { result ≡ wanted_of (drafted self.now) }
    {
        ListWord::Line {
            boot: self.boot.is_none(),
            root: self.root.is_none(),
        }
    }

    /// Returns the list, if its first two lines were read.
    pub(crate) fn finish(self) -> Result<PackList, ListFault>
        ensures ok { IfOk result (λ list. finished (drafted self) ≡ Ok (listed list)) }
        ensures fault { IfErr result (Tells (finished (drafted self))) }
    {
        let Draft {
            stage,
            boot,
            root,
            members,
        } = self;
        match stage {
            Stage::Unsized => Err(ListFault::Ends(ListWord::Volume)),
            Stage::Untimed(_) => Err(ListFault::Ends(ListWord::Time)),
            Stage::Begun(volume) => Ok(PackList {
                volume,
                boot,
                root,
                members,
            }),
        }
    }
}

/// Appends a member.
fn push_member(members: &mut Vec<ListedMember>, member: ListedMember) -> Result<(), LineFault>
    ensures pushed { OnOk result (members.new.items ≡ members.old.items ++ member ∷ []) }
    ensures fault { IfErr result (λ fault. fault ≡ LineFault.NoMemory) }
{
    members.push(member).map_err(|_| LineFault::NoMemory)
}

/// True if a word begins a comment.
fn is_comment(word: &[u8]) -> bool
    ensures { result ≡ is_comment word.now }
{
    word.starts_with(b"#")
}
