//! Texts of gcc in other words than those of the table of forms.

use crate::fault::Fault;
use crate::texts::joined;
use drv_gcc::replace;
use drv_words::Word;
use std::alloc::Global;

/// Words of gcc's texts, and others in their places. The first are fewer steps: the front never hands
/// some switches on. Few lines have rules for `make` made, or plugins. The last are for lines without the front, which has its words for
/// `-g`.
const OTHER_WORDS: [(&[u8], &[u8]); 6] = [
    (b"%<dumpdir %<dumpbase %<dumpbase-ext ", b""),
    (
        b"%{MD:-MD %(dependencies)} %{MMD:-MMD %(dependencies)} %{M} %{MM} %{MF*} %{MG} %{MP} \
%{MQ*} %{MT*} %{Mmodules} %{Mno-modules}",
        b"%{M*:%{MD:-MD %(dependencies)} %{MMD:-MMD %(dependencies)} %{M} %{MM} %{MF*} %{MG} %{MP} \
%{MQ*} %{MT*} %{Mmodules} %{Mno-modules}}",
    ),
    (
        b"%{!iplugindir*:%{fplugin*:%(plugin_folder)}}",
        b"%{fplugin*:%{!iplugindir*:%(plugin_folder)}}",
    ),
    (b"%{-gdrv-level=*:", b"%{-gdrv-level=*|!-gdrv-front:"),
    (
        b"%{-gdrv-level=3:-dD}",
        b"%{-gdrv-level=3:-dD;-gdrv-front:;g3:-dD}",
    ),
    (
        b"%{-gdrv-dwarf=5:--gdwarf-5 ;",
        b"%{!-gdrv-front:%(own_records);-gdrv-dwarf=5:--gdwarf-5 ;",
    ),
];

/// Texts with these words.
pub fn with_other_words(alloc: Global, texts: &Word) -> Result<Word, Fault> {
    let mut whole = texts.clone()?;
    for (words, other) in OTHER_WORDS {
        whole = replace(alloc, whole.as_bytes(), words, other)?;
    }
    Ok(whole)
}

/// The word for the records of an assembly where a line has no front: that of its `-gdwarf-N`, or
/// else the one that a gcc hands on for `-g`.
pub fn own_records(alloc: Global, usual: &[u8]) -> Result<Word, Fault> {
    let between = if usual.is_empty() {
        b"".as_slice()
    } else {
        b";:"
    };
    let given = b"%{g0:;gdwarf-2:--gdwarf2;gdwarf-*:--gdwarf-%*".as_slice();
    joined(alloc, &[given, between, usual, b"}"])
}
