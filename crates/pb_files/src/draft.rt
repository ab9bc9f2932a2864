//! The draft of a file that is to be made anew.

ghost use Rattle.std.specs.Prelude.{◌≡◌, IfErr, OnErr, OnOk, false, true};
ghost use Rattle.pb_commands.specs.declared.store.StoreError.TheVariants.{Write};
ghost use Rattle.pb_files.specs.Ends.{IsSynced};

use crate::file_end::SystemFile;
use crate::holding::{hold, is_same, lock, resolve, sync_folder};
use crate::opening::{opened, tell_fault};
use pb_commands::StoreError;
use pb_messages::{Cause, Named};
use std::fs::{self, File, OpenOptions};
use std::io::ErrorKind::NotFound;
use std::io::{self, Seek};
use std::os::unix::fs::{MetadataExt, OpenOptionsExt};
use std::path::PathBuf;

/// The permissions of a new file, less what its user's umask takes away.
const ANYBODY: u32 = 0o666;

/// A name that this run alone gives to a new file. It holds what has the name, and beside that the
/// draft: `.NAME.pbook`.
#[derive(Drop)]
pub(crate) struct Draft<'a> {
    named: Named<'a>,
    path: PathBuf,
    old: Option<File>,
    reads: bool,
    draft: Made<'a>,
}

/// What was made under this name, which goes unless it gets another one.
struct Made<'a> {
    rt: &'a HostRuntime,
    path: PathBuf,
    // None until it is made, and where it could not be given the name, and so stays.
    file: Option<File>,
}

impl Made<'_> {
    /// Whether it is this run's still: another may have made one where this is removed.
    fn is_there(&self) -> bool {
        let found = fs::symlink_metadata(self.rt, &self.path);
        let file = self.file.as_ref();
        file.is_some_and(|file| is_same(file.metadata(), found))
    }
}

impl Drop for Made<'_> {
    fn drop(self) {
        let is_there = self.is_there();
        let Made { rt, path, file: _ } = self;
        if is_there {
            let _ = fs::remove_file(rt, &path);
        }
    }
}

impl<'a> Draft<'a> {
    /// Gives the empty draft of the file that this name leads to, or None where it leads to a
    /// device or a pipe. What fails is told, by the name of the draft where that can't be made.
    pub(crate) fn of(named: Named<'a>, reads: bool) -> Result<Option<Draft<'a>>, StoreError> {
        let rt = named.messages.rt;
        let path = opened(named, resolve(rt, named.name))?;
        let old = match fs::metadata(rt, named.name) {
            Ok(metadata) if !metadata.is_file() && !metadata.is_dir() => return Ok(None),
            Err(error) if error.kind() == NotFound => None,
            _ => Some(hold(rt, OpenOptions::new().read(reads).write(true), &path)),
        };
        let mut claimed = Draft {
            named,
            old: opened(named, old.transpose())?,
            reads,
            draft: Made {
                rt,
                path: opened(named, draft_path(rt, &path))?,
                file: None,
            },
            path,
        };
        let file = claimed.file();
        claimed.opened(file)?;
        Ok(Some(claimed))
    }

    /// Gives what was opened as the draft, or tells that it can't be: by the file's name where the
    /// folder of both isn't there.
    fn opened(&self, file: io::Result<File>) -> Result<File, StoreError> {
        let Named { messages, name } = self.named;
        if file.as_ref().is_err_and(|error| error.kind() == NotFound) {
            return opened(Named::new(messages, name), file);
        }
        opened(Named::new(messages, self.draft.path.as_str()), file)
    }

    /// Makes the draft, in the place of one that a run has left that was killed: owner, permissions
    /// and links are its own. It is as private as the old file from the first, since whoever may
    /// open it empty reads it later.
    fn make(&mut self) -> io::Result<()> {
        let Made { rt, path, file } = &mut self.draft;
        let left = hold(rt, OpenOptions::new().read(true).write(true), path);
        // It is locked until its name is gone, so no other run has it.
        match left.and_then(|_left| fs::remove_file(rt, &*path)) {
            Err(error) if error.kind() != NotFound => return Err(error),
            _ => {}
        }
        let old = self.old.as_ref().map(File::metadata).transpose()?;
        let mode = old.as_ref().map_or(ANYBODY, MetadataExt::mode);
        let mut options = OpenOptions::new();
        options.read(true).write(true).create_new(true).mode(mode);
        lock(rt, file.insert(options.open(rt, &*path)?), path)
    }

    /// Gives the file of the draft, which is made anew where somebody has removed it, as private as
    /// the old file is by now.
    pub(crate) fn file(&mut self) -> io::Result<File> {
        if !self.draft.is_there() {
            self.make()?;
        }
        let file = copy(&self.draft.file, "its draft is gone")?;
        if let Some(old) = &self.old {
            let (old, new) = (old.metadata()?, file.metadata()?);
            if old.dev() != new.dev() {
                return Err(io::Error::other("the old file is a mount"));
            }
            // Not each file system lets permissions be set.
            if old.mode() != new.mode() {
                file.set_permissions(old.permissions())?;
            }
        }
        Ok(file)
    }

    /// Gives another handle of what had the name at the start.
    pub(crate) fn old(&self) -> io::Result<File> {
        copy(&self.old, "no such file (an empty one begins a ledger)")
    }

    /// Gives another name to a file that isn't as long any more as this run has read it, and tells
    /// it: it may have what this run doesn't know.
    fn keep_changed(&self, _file: &SystemFile<'a>) -> io::Result<()>
        requires { _file.now.named ≡ false }
    {
        let (Some(mut old), true) = (self.old.as_ref(), self.reads) else {
            return Ok(());
        };
        let (Named { messages, name }, path) = (self.named, &self.path);
        match fs::metadata(messages.rt, path) {
            Ok(metadata) if metadata.len() != old.stream_position()? => {}
            _ => return Ok(()),
        }
        let kept = format!(in messages.rt.alloc(); "{}.changed", path.as_str())?;
        let kept = kept.as_str();
        let linked = fs::hard_link(messages.rt, path, kept);
        let why = io::Error::other("another program has changed it");
        tell_fault(Named::new(messages, kept), linked, why)?;
        messages.tell(&format_args!("{name}: another program has changed it; {kept} keeps that"));
        Ok(())
    }

    /// Gives the name to the draft, which is this file.
    fn rename(&self, file: &mut SystemFile<'a>) -> io::Result<()>
        requires { IsSynced file.old }
        ensures named { OnOk result (file.new ≡ record file.old { named = true }) }
        ensures failed { OnErr result (file.new ≡ file.old) }
    {
        fs::rename(self.draft.rt, &self.draft.path, &self.path)?;
        file.is_named = true;
        Ok(())
    }

    /// Gives the name to the draft, which is this file, once what another program has added to the
    /// old one is kept. Where that fails the draft stays, and is told: it has all that the run took.
    pub(crate) fn name(&mut self, file: &mut SystemFile<'a>) -> Result<(), StoreError>
        requires synced { IsSynced file.old }
        requires unnamed { file.old.named ≡ false }
        ensures named { OnOk result (file.new ≡ record file.old { named = true }) }
        ensures failed { IfErr result (λ why. why ≡ Write) }
    {
        let Named { messages, name } = self.named;
        if !self.draft.is_there() {
            self.named.fail(&io::Error::other("its draft is gone"));
            return Err(StoreError::Write);
        }
        let renamed = match self.keep_changed(file) {
            Ok(()) => self.rename(file),
            kept => kept,
        };
        if let Err(error) = renamed {
            self.draft.file = None;
            let (cause, draft) = (Cause(&error), self.draft.path.as_str());
            let until = format_args!("until the next run over {name} removes it");
            messages.tell(&format_args!("{name}: {cause}; the new one is {draft}, {until}"));
            return Err(StoreError::Write);
        }
        Ok(())
    }

    /// Puts the name of this file on the disk.
    pub(crate) fn sync_name(&self, _file: &SystemFile<'a>) -> io::Result<()>
        requires { _file.now.named ≡ true }
    {
        sync_folder(self.draft.rt, &self.path)
    }
}

fn copy(file: &Option<File>, missing: &'static str) -> io::Result<File> {
    file.as_ref().ok_or(io::Error::other(missing))?.try_clone()
}

/// Gives the path of the draft that a file of this name has.
pub fn draft_of(rt: &HostRuntime, name: &str) -> io::Result<PathBuf> {
    draft_path(rt, &resolve(rt, name)?)
}

/// Fails where the path doesn't end in a file's name.
fn draft_path(rt: &HostRuntime, path: &PathBuf) -> io::Result<PathBuf> {
    let name = path.file_name().filter(|it| path.as_str().ends_with(*it));
    let name = name.ok_or(io::Error::other("a file has to be named"))?;
    let name = format!(in rt.alloc(); ".{name}.pbook")?;
    Ok(path.with_file_name(rt.alloc(), name.as_str())?)
}
