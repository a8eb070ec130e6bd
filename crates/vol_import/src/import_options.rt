//! The options of an import: the members that are left out, and the owner of the members that are made.
ghost use Rattle.std.specs.Prelude.{◌≡◌, [], IfOk, OnOk};
ghost use Rattle.vol_import.specs.Options.{chosen, is_left_out, is_skipped, is_special, owned_by, parted, parts_of, sorted, sorted_with};
ghost use Rattle.vol_import.specs.Plan.{is_known};

use crate::archive_members::Member;
use crate::draft::note_known;
use crate::step_path::StepPath;
use std::alloc::{AllocError, Global};
use std::collections::BTreeSet;
use ustar::{MemberKind, ReadHeader, TypeFlag};
use vol_dir::Cred;
use vol_volume::Bytes;

/// The options of an import.
#[derive(Clone, Copy)]
pub struct ImportOptions {
    /// True if special files are left out: character and block files, FIFOs, and links to files that are left out. Otherwise the first special file
    /// is a fault.
    pub skip_special: bool,
    /// The owner of all members that are made; if there is none, each member has its own.
    pub owner: Option<Cred>,
}

/// The members of an archive that are to be made, and the paths of the members that are left out, both in the archive's order.
#[derive(Drop)]
pub(crate) struct Chosen {
    /// The members.
    pub(crate) members: Vec<Member>,
    /// The paths.
    pub(crate) left_out: Vec<Bytes>,
}

/// The first members of an archive, sorted into the two groups.
#[derive(Drop)]
pub(crate) struct Sorting {
    /// The paths of the members that are left out, in the order of their bytes.
    known: BTreeSet<StepPath>,
    /// These paths, in the order of the archive.
    left_out: Vec<Bytes>,
    /// The other members, in the order of the archive.
    members: Vec<Member>,
}

impl Sorting {
    /// Returns a sorting of no members.
    fn new(alloc: Global) -> Sorting
        ensures { sorted result ≡ ([], [], []) }
    {
        Sorting {
            known: BTreeSet::new(alloc),
            left_out: Vec::new(alloc),
            members: Vec::new(alloc),
        }
    }

    /// Adds a member after the others: only its path if it is left out, else the member with its new owner.
    fn push(
        &mut self,
        alloc: Global,
        options: ImportOptions,
        member: Member,
    ) -> Result<(), AllocError>
        ensures { OnOk result (sorted self.new ≡ sorted_with options (sorted self.old) member) }
    {
        if self.is_left_out(alloc, options, &member)? {
            note_known(alloc, member.path.as_slice(), &mut self.known)?;
            self.left_out.push(member.path)?;
        } else {
            self.members.push(owned_by(options.owner, member))?;
        }
        Ok(())
    }

    /// True if a member is left out.
    fn is_left_out(
        &self,
        alloc: Global,
        options: ImportOptions,
        member: &Member,
    ) -> Result<bool, AllocError>
        ensures { IfOk result (λ left_out. left_out ≡ is_left_out options self.now.known.keys member.now) }
    {
        if options.skip_special {
            self.is_skipped(alloc, member.header.flag, member.link.as_slice())
        } else {
            Ok(false)
        }
    }

    /// True if a member is a special file, or a link to the path of a member that was left out before it.
    fn is_skipped(&self, alloc: Global, flag: TypeFlag, link: &[u8]) -> Result<bool, AllocError>
        ensures { IfOk result (λ skipped. skipped ≡ is_skipped self.now.known.keys link.now flag) }
    {
        match flag {
            TypeFlag::Member(MemberKind::Link) => self.is_known(alloc, link),
            flag => Ok(is_special(flag)),
        }
    }

    /// True if a member with this path was left out.
    fn is_known(&self, alloc: Global, path: &[u8]) -> Result<bool, AllocError>
        ensures { IfOk result (λ known. known ≡ is_known self.now.known.keys path.now) }
    {
        let path = StepPath::from_vec(Vec::from_slice(alloc, path)?);
        Ok(self.known.contains(&path))
    }

    /// Returns the members that aren't left out, and the paths of the members that are.
    fn into_chosen(self) -> Chosen
        ensures { parted result ≡ parts_of (sorted self) }
    {
        let Sorting {
            known,
            left_out,
            members,
        } = self;
        drop(known);
        Chosen { members, left_out }
    }
}

/// True if a member with this type flag is a special file.
fn is_special(flag: TypeFlag) -> bool
    ensures { result ≡ is_special flag }
{
    match flag {
        TypeFlag::Member(MemberKind::Character | MemberKind::Block) | TypeFlag::Fifo => true,
        TypeFlag::Member(MemberKind::File | MemberKind::Directory | MemberKind::Link) => false,
        TypeFlag::SymbolicLink | TypeFlag::LongName | TypeFlag::LongLink => false,
        TypeFlag::Extended | TypeFlag::Global | TypeFlag::VolumeLabel => false,
        TypeFlag::Other(_) => false,
    }
}

/// Returns a member with this owner, if there is one.
fn owned_by(owner: Option<Cred>, member: Member) -> Member
    ensures { result ≡ owned_by owner member }
{
    let Some(owner) = owner else {
        return member;
    };
    let Member {
        header,
        path,
        link,
        content,
    } = member;
    let header = ReadHeader {
        uid: u64::from(owner.uid),
        gid: u64::from(owner.gid),
        ..header
    };
    Member {
        header,
        path,
        link,
        content,
    }
}

/// Returns the members of an archive that the options choose, and the paths of the members that are left out.
///
/// Moves the members. Takes memory for a list of them, and twice for the paths that are left out.
pub(crate) fn choose(
    alloc: Global,
    options: ImportOptions,
    found: Vec<Member>,
) -> Result<Chosen, AllocError>
    ensures { IfOk result (λ parts. parted parts ≡ chosen options found.items) }
{
    let mut sorting = Sorting::new(alloc);
    let mut left = found;
    left.reverse();
    'members: while let Some(member) = left.pop() {
        sorting.push(alloc, options, member)?;
    }
    Ok(sorting.into_chosen())
}
