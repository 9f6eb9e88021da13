//! The spec files of a gcc's devices. It reads one for each line: that of the device which an option
//! of the line names, or of a usual one.

use crate::asking::{Gcc, text};
use crate::fault::Fault;
use crate::natives::add_probe;
use crate::programs::names_in;
use crate::texts::{add_all, has_bytes, joined, numbered, sorted_lines};
use drv_gcc::values;
use drv_words::{Listing, Word, split_at_last};
use std::fs;

/// Whether a spec file, or an option with one, is that of a device.
pub fn is_of_device(path: &[u8]) -> bool {
    has_bytes(path, b"device-specs/specs-")
}

/// What lines are refused for: a folder of the line may have another spec file for its device, and a
/// spec file of the line comes before that.
const ALONE: &[u8] = b"*device_alone:\n\
    %{-gdrv-dirs:%e-B and -specs= beside the spec file of a device are not in this spec file}\n\n";

/// The text of devices that names a library, and the option without which it does.
const LIBRARY: &[u8] = b"avrlibc_devicelib";

const IN_LIBRARY: &[u8] = b"%{!nodevicelib:";

/// The copy of that text for the linker's plugin, up to the number of its words in rows, and the
/// rest.
const PASSED: &[u8] = b"*pass_avrlibc_devicelib:\n%{!nodevicelib:%{-gdrv-fn";

const PASSED_REST: &[u8] = b"=-l*:-plugin-opt=-pass-through=-l%*}}\n\n";

impl<'a> Gcc<'a> {
    /// The spec files that it reads for a line without options.
    fn files_read(self) -> Result<Listing<Word>, Fault> {
        let said = self.with(b"").ask(b"-v")?;
        Ok(values(self.alloc(), b"Reading specs from ", said.err.as_bytes())?)
    }

    /// The spec files that it reads for each line, as `musl-gcc` does, which calls another gcc.
    pub fn own_files(self) -> Result<Listing<Word>, Fault> {
        let mut files = Listing::new(self.alloc());
        for path in self.files_read()?.into_vec() {
            if !is_of_device(path.as_bytes()) {
                files.push(path)?;
            }
        }
        Ok(files)
    }

    /// The folder of its devices' spec files; empty if it has none.
    pub fn device_folder(self) -> Result<Word, Fault> {
        for path in self.files_read()?.as_slice() {
            let parts = split_at_last(b'/', path.as_bytes());
            if let (true, Some((folder, _))) = (is_of_device(path.as_bytes()), parts) {
                return Ok(Word::from_bytes(self.alloc(), folder)?);
            }
        }
        Ok(Word::empty(self.alloc()))
    }

    /// The devices that have a spec file in a folder, sorted by their names.
    pub fn devices_in(self, folder: &Word) -> Result<Listing<Word>, Fault> {
        let mut devices = Listing::new(self.alloc());
        if folder.is_empty() {
            return Ok(devices);
        }
        for name in names_in(self.rt, folder)?.as_slice() {
            if let Some(device) = name.as_bytes().strip_prefix(b"specs-".as_slice()) {
                devices.push(Word::from_bytes(self.alloc(), device)?)?;
            }
        }
        Ok(devices)
    }

    /// The names of the texts that spec files in a folder of devices put, but of that which gives
    /// options of a line.
    fn texts_in(self, folder: &Word) -> Result<Listing<Word>, Fault> {
        let mut names = Word::empty(self.alloc());
        for device in self.devices_in(folder)?.as_slice() {
            let parts = [folder.as_bytes(), b"/specs-", device.as_bytes()];
            let content = fs::read(self.rt, text(joined(self.alloc(), &parts)?.as_bytes())?)?;
            for line in values(self.alloc(), b"*", content.as_slice())?.as_slice() {
                match line.as_bytes().strip_suffix(b":".as_slice()) {
                    Some(name) if name != b"self_spec".as_slice() => {
                        add_all(&mut names, &[name, b"\n"])?;
                    }
                    _ => {}
                }
            }
        }
        sorted_lines(self.alloc(), names.as_bytes())
    }

    /// Adds a text of devices to a dump, for which rows have words under another name, and the probe
    /// that shows what it is for a line's device.
    fn add_device_text(
        self,
        name: &[u8],
        texts: &mut Word,
        probes: &mut Listing<Word>,
    ) -> Result<(), Fault> {
        let number = numbered(self.alloc(), b"", probes.len())?;
        let call = joined(self.alloc(), &[b"%(".as_slice(), name, b")"])?;
        let own = add_probe(self, &call, probes)?;
        if name == LIBRARY {
            add_all(texts, &[PASSED, number.as_bytes(), PASSED_REST])?;
            return add_all(
                texts,
                &[
                    b"*",
                    name,
                    b":\n",
                    IN_LIBRARY,
                    b"%(",
                    own.as_bytes(),
                    b")}\n\n",
                ],
            );
        }
        add_all(texts, &[b"*", name, b":\n%(", own.as_bytes(), b")\n\n"])
    }

    /// A dump with the texts that devices' spec files put. Rows have what they are for a line's device,
    /// and a probe for each shows it.
    pub fn with_devices(self, dump: Word, probes: &mut Listing<Word>) -> Result<Word, Fault> {
        let folder = self.device_folder()?;
        if folder.is_empty() {
            return Ok(dump);
        }
        let mut texts = dump;
        texts.extend_from_slice(ALONE)?;
        for name in self.texts_in(&folder)?.as_slice() {
            self.add_device_text(name.as_bytes(), &mut texts, probes)?;
        }
        Ok(texts)
    }
}
