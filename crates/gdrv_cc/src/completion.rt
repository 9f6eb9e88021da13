//! The question that the program answers itself: `gdrv-cc --completion`.

ghost use Rattle.gdrv_cc.specs.Questions.{asks_completion, is_completion};
ghost use Rattle.std.specs.Prelude.{◌≡◌};

use drv_compile::Front;
use drv_words::Word;
use std::io::{self, Write};

/// What bash reads to complete the words of `gdrv`, `gdrv-cc` and `gdrv-specs`.
const COMPLETION: &str =
    r#"# bash completion for gdrv, gdrv-cc (gdrv-gcc and TARGET-gdrv-cc too) and gdrv-specs.
# `gdrv-cc --completion` prints it. ./install puts it into a file, and links each command's name to that.

# The words that complete the current one, out of a list. No blank follows one that ends where its argument begins.
_gdrv_words() {
    mapfile -t COMPREPLY < <(compgen -W "$1" -- "$2")
    case ${COMPREPLY[*]} in *[=,]) compopt -o nospace 2>/dev/null ;; esac
}

# Files that complete the current word, behind a prefix that stays.
_gdrv_files() {
    mapfile -t COMPREPLY < <(compgen -f -P "$1" -- "${2#"$1"}")
    compopt -o filenames 2>/dev/null
}

# The words of the driver itself; which others mean something is said by the spec files of the line.
_gdrv_options='-### -A -B -D -E -I -L -MF -MQ -MT -S -T -U -Wa, -Wl, -Wp, -Xassembler -Xlinker -Xpreprocessor -c -dumpspecs -e -idirafter -imacros
    -include -iquote -isystem -l -o -pass-exit-codes -pipe -specs= -u -v -x -z --c99 --help --jobs= --version'

# The line of gdrv. Bash breaks `-specs=FILE` into three words, the second of which is `=`.
_gdrv() {
    local current=${COMP_WORDS[COMP_CWORD]} before=${COMP_WORDS[COMP_CWORD - 1]}
    if [ "$current" = = ]; then
        _gdrv_files '' ''
    elif [ "$before" = -x ]; then
        _gdrv_words 'c cpp-output c-header assembler assembler-with-cpp none' "$current"
    elif [[ $before != = && $current == -* ]]; then
        _gdrv_words "$_gdrv_options" "$current"
    else
        _gdrv_files '' "$current"
    fi
}

# The options of gcc that begin so, which gcc says itself.
_gdrv_cc() {
    local current=${COMP_WORDS[COMP_CWORD]}
    if [[ ${COMP_WORDS[COMP_CWORD - 1]} != = && $current == -* ]]; then
        _gdrv_words "$("${COMP_WORDS[0]}" --completion="$current" 2>/dev/null)" "$current"
    else
        _gdrv_files '' "$current"
    fi
}

# A tool, its options and files, and behind `--` a program and its line.
_gdrv_specs() {
    local current=${COMP_WORDS[COMP_CWORD]} before=${COMP_WORDS[COMP_CWORD - 1]} place
    for ((place = 2; place < COMP_CWORD; place++)); do
        [ "${COMP_WORDS[place]}" != -- ] || break
    done
    if [ "$COMP_CWORD" = 1 ]; then
        _gdrv_words 'check plan after diff why --help --version' "$current"
    elif [ "$before" = -- ] && [ "${COMP_WORDS[1]}" != check ]; then
        _gdrv_words 'gdrv gdrv-cc gcc cc c99' "$current"
    elif ((place < COMP_CWORD)) && [ "${COMP_WORDS[1]}" != check ]; then
        _gdrv
    elif [[ ${COMP_WORDS[1]} == check && $current == -* ]]; then
        _gdrv_words '--gcc --help --json --over= -Werror -Wno-append-to-nothing -Wno-directive-in-body -Wno-hidden-pair
            -Wno-lost-mark -Wno-never-true -Wno-quoted-word -Wno-unknown-text -Wno-unreachable -Wno-unused-text' "$current"
    elif [[ ${COMP_WORDS[1]} == after && $current == -* ]]; then
        _gdrv_words '-- --fail= --help' "$current"
    elif [[ ${COMP_WORDS[1]} == diff && $current == -* ]]; then
        _gdrv_words '-- --full --help' "$current"
    elif [[ ${COMP_WORDS[1]} == why && $current == -* ]]; then
        _gdrv_words '-- --help --not= --of=' "$current"
    elif [[ ${COMP_WORDS[1]} == plan && $current == -* ]]; then
        _gdrv_words '-- --help --json --sh' "$current"
    else
        _gdrv_files '' "$current"
    fi
}

complete -F _gdrv gdrv
complete -F _gdrv_cc gdrv-cc gdrv-gcc
case ${BASH_SOURCE##*/} in *-gdrv-cc | *-gdrv-gcc) complete -F _gdrv_cc "${BASH_SOURCE##*/}" ;; esac
complete -F _gdrv_specs gdrv-specs
"#;

/// Whether these words are the one that asks for it.
fn is_completion(args: &[Word]) -> bool
    ensures { result ≡ is_completion args.now }
{
    match args {
        [word] => word.as_bytes() == b"--completion".as_slice(),
        _ => false,
    }
}

/// Whether a call asks for what bash reads: a line of gcc that has no other word. To gcc that word is
/// unknown; only `--completion=` with the beginning of an option is one of its own.
pub fn asks_completion(front: Front, args: &[Word]) -> bool
    ensures { result ≡ asks_completion front args.now }
{
    match front {
        Front::Gcc => is_completion(args),
        Front::C99 | Front::Cxx => false,
    }
}

/// Writes what bash reads.
///
/// # Errors
/// Why it could not be written.
pub fn write_completion<W: Write>(to: &mut W) -> io::Result<()> {
    to.write_all(COMPLETION.as_bytes())
}
