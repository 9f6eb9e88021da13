//! What no dump has: how gcc compiles a source of each language, and where files go whose names the
//! front of gdrv-cc hands on.
//!
//! Words --gdrv-.. are the front's: gdrv-cc(1), SWITCHES FOR SPEC TEXTS. A pattern drops their
//! first hyphen (`%{-gdrv-base=*:..}`). docs/SPECS.md explains `%{..}` and the other directives.
//! In a constant, `*name:` begins a text of that name, and `@name:` or `.suffix:` that of a language.

ghost use Rattle.drv_gcc.specs.Fixed.{alone, commands, first_texts, guards, languages, last_texts};
ghost use Rattle.drv_gcc.specs.Fixed.{link_guard, side_files, wrappers};
ghost use Rattle.std.specs.Prelude.{◌≡◌, ◌++◌, OnOk};

use crate::toolchain::SideFiles;
use drv_words::Word;
use std::alloc::AllocError;

/// Texts that a dump may replace. Each gives nothing: no line has --gdrv-none.
const FIRST: &[u8] = b"\
    *distro_defaults:\n\
    %{-gdrv-none:}\n\
    \n\
    *asm_debug_option:\n\
    %{-gdrv-none:}\n\
    \n\
    *device_alone:\n\
    %{-gdrv-none:}\n\
    \n\
    *refused_folders:\n\
    %{-gdrv-none:}\n\
    \n";

/// What a line is refused for: the front sees what no pattern can. `refused_here` has what this spec
/// file leaves out. `several_suffixes` refuses side files where sources that only `-x` makes sources
/// have several suffixes. `gdrv-cc` runs two texts before a line: `gdrv_self` gives it options, and
/// `gdrv_pass` the libraries of its link, which `lto_pass_through` passes to the linker's plugin.
/// `driver_alone` hides switches that gcc's driver alone reads. The others give nothing, or the
/// folder `.`, unless another text of that name follows.
const GUARDS: &[u8] = b"\
    *several_suffixes:\n\
    %{fstack-usage|fcallgraph-info*|coverage|ftest-coverage|fprofile-*|fdump-final-insns*|\
    gsplit-dwarf:%enames of side files of sources with several suffixes of other languages \
    are not in this spec file}\n\
    \n\
    *refused_here:\n\
    %(refused_root)%(refused_names)%(refused_folders)%(device_alone)%{specs=*:%(other_library)}\
    %{mmusl*|muclibc*|mbionic*|mandroid*:%eanother C library is not in this \
    spec file}%{-gdrv-wrapper=:%e-wrapper with an empty word is not in this spec file}\
    %{-gdrv-suffixes:%(several_suffixes)} %(refused_options)%{!-gdrv-front:%(without_front)}\n\
    \n\
    *gdrv_self:\n\
    / %(self_spec)\n\
    / %{*}\n\
    \n\
    *self_spec:\n\
    %{-gdrv-none:}\n\
    \n\
    *driver_alone:\n\
    %<foffload=* %<fdump-core\n\
    \n\
    *sysroot_folder:\n\
    %{-gdrv-none:}\n\
    \n\
    *other_library:\n\
    %{-gdrv-multi=*:%(own_folders)%{B*:%e-B with options for other libraries is not in this \
    spec file}}\n\
    \n\
    *without_plugin:\n\
    %{flto*:%{fno-lto:;fno-use-linker-plugin:%e-flto without the plugin of the linker is not in \
    this spec file}}\n\
    \n\
    *gdrv_pass:\n\
    / %{!fsyntax-only:%{!c:%{!M:%{!MM:%{!E:%{!S:%{!nostdlib:%{!nodefaultlibs:\
    %(link_gcc_c_sequence)}}}}}}}}\n\
    /\n\
    \n\
    *lto_pass_through:\n\
    %{-gdrv-passed:%{-gdrv-pass=*:-plugin-opt=-pass-through=%*};:%(pass_link_gcc_c_sequence)}\n\
    \n";

/// What a line without the front is refused for: options that the front alone reads, two of which
/// the last counts, and each switch that is in no list.
const ALONE: &[u8] = b"\
    *last_one:\n\
    %ewhich of two options is the last needs gdrv-cc\n\
    \n\
    *without_front:\n\
    %{B*:%e-B needs gdrv-cc}%{fsanitize=*:%e-fsanitize= needs gdrv-cc}%{flto*:%e-flto needs gdrv-cc}\
    %{fopenmp|fopenacc|fgnu-tm|ftree-parallelize-loops=*:%e-fopenmp and other threads need gdrv-cc}\
    %{save-temps*|gsplit-dwarf|fprofile-*|ftest-coverage|coverage|-coverage|fstack-usage|\
    fcallgraph-info*|fdump-*|fopt-info*|fcompare-debug*:%enames of side files need gdrv-cc}\
    %{MD|MMD:%{!MF*:%{o*:%e-MD with -o needs gdrv-cc}}}\
    %{gtoggle|g0:%{g|g1|g2|g3|ggdb*|gdwarf*:%(last_one)}}\
    %{m*|EB|EL:%eoptions for a machine need gdrv-cc}%{no-pie:%{pie|static-pie:%(last_one)}} \
    %<A* %<C %<CC %<D %<E %<F* %<H %<I %<L* %<M* %<N %<O* %<P %<Q %<Qn %<Qy %<S %<T* %<U %<W* %<Z \
    %<ansi %<aux-info %<c %<d* %<e* %<f* %<g* %<h* %<i* %<m* %<n %<no-integrated-cpp %<no-pie \
    %<nodefaultlibs %<nolibc %<nostartfiles %<nostdinc* %<nostdlib %<o %<p %<pedantic* %<pg %<pie \
    %<pipe %<posix %<profile %<pthread %<r %<rdynamic %<remap %<s %<shared %<shared-libgcc %<specs=* \
    %<static %<static-lib* %<static-pie %<std=* %<symbolic %<t %<traditional* %<trigraphs %<u* \
    %<undef %<v %<w %<z* %<-param* %{*:%eunknown option}\n\
    \n";

/// The names of side files. `dump_words`: -dumpbase-ext is the front's suffix; none, if it gave a
/// name alone; else the input's own, or that of --gdrv-suffix=. `dependencies` is the file of -MD,
/// and `dwo_name` that of debug information.
const SIDE_FILES: &[u8] = b"\
    *dump_words:\n\
    %{-gdrv-dir=*:-dumpdir %*} %{-gdrv-base=*:-dumpbase %*;:-dumpbase %B} \
    %{-gdrv-ext=*:-dumpbase-ext %*;-gdrv-base=*:;.c:-dumpbase-ext .c;.i:-dumpbase-ext .i;\
    .h:-dumpbase-ext .h;.S:-dumpbase-ext .S;.sx:-dumpbase-ext .sx;\
    -gdrv-suffix=*:-dumpbase-ext %*}\n\
    \n\
    *dependencies:\n\
    %{-gdrv-dep=*:%*;-gdrv-dir=*:%*%b.d;:%b.d}\n\
    \n\
    *dwo_name:\n\
    %{-gdrv-aux=*:%*.dwo;-gdrv-dir=*:%*%b.dwo;:%b.dwo}\n\
    \n";

/// The names of files of a compilation: by -o, by what -save-temps keeps (--gdrv-aux=, or
/// --gdrv-dir= before the input's name), or temporaries.
const FRONT_NAMES: &[u8] = b"\
    *refused_names:\n\
    %{-gdrv-none:}\n\
    \n\
    *object:\n\
    %{c:%W{o*}%{!o*:-o %w%b%O};save-temps*:-o %w%{-gdrv-aux=*:%*%O;-gdrv-dir=*:%*%b%O;:%b%O}\
    ;:-o %w%u%O}\n\
    \n\
    *split_object:\n\
    %{c:%{o*:%*}%{!o*:%b%O};save-temps*:%{-gdrv-aux=*:%*%O;-gdrv-dir=*:%*%b%O;:%b%O};:%U%O}\n\
    \n\
    *preprocessed:\n\
    %{save-temps*:%{-gdrv-aux=*:%*.i;-gdrv-dir=*:%*%b.i;:%b.i};:%g.i}\n\
    \n\
    *checked:\n\
    %{save-temps*:%{-gdrv-aux=*:%*;-gdrv-dir=*:%*%b;:%b};:/dev/null}\n\
    \n\
    *assembly:\n\
    %{-gdrv-aux=*:%*.s;-gdrv-dir=*:%*%b.s;:%b.s}\n\
    \n";

/// The same by the name of the source. Refused is what has no such name: files of a link, and those
/// beside an object of another name.
const SOURCE_NAMES: &[u8] = b"\
    *refused_names:\n\
    %{c|S|E|M|MM|fsyntax-only:;save-temps*|MD|MMD|gsplit-dwarf:%enames of side files of a link are \
    not in this spec file}%{save-temps=obj:%{o*:%e-save-temps=obj with -o is not in this spec \
    file}}\n\
    \n\
    *object:\n\
    %{c:%W{o*}%{!o*:-o %w%b%O};save-temps*:-o %w%b%O;:-o %w%u%O}\n\
    \n\
    *split_object:\n\
    %{c:%{o*:%*}%{!o*:%b%O};save-temps*:%b%O;:%U%O}\n\
    \n\
    *preprocessed:\n\
    %{save-temps*:%b.i;:%g.i}\n\
    \n\
    *checked:\n\
    %{save-temps*:%b;:/dev/null}\n\
    \n\
    *assembly:\n\
    %b.s\n\
    \n";

/// The words of `-wrapper`: `wrapper` before a first command, and `later_wrapper` before a second one,
/// unless a pipe feeds it. `wrapped` lets a program behind them be looked for as a file (`%s`).
const WRAPPERS: &[u8] = b"\
    *wrapper:\n\
    %{-gdrv-wrapper=*:%* }\n\
    \n\
    *later_wrapper:\n\
    %{pipe:;-gdrv-wrapper=*:%* }\n\
    \n\
    *wrapped:\n\
    %{-gdrv-wrapper=*:%s}\n\
    \n";

/// How a source is compiled (`compile`: by one program, or after a preprocessor of its own), and its
/// assembly assembled (`invoke_as`: from a file that -save-temps keeps, or else a pipe or temporary).
const COMMANDS: &[u8] = b"\
    *invoke_as:\n\
    %{!fwpa*:%{S:;save-temps*:-o %(assembly)\n \
    %(wrapper)%(as_cmd) %(asm_options) %(assembly) %A;:-o %|.s |\n \
    %(later_wrapper)%(as_cmd) %(asm_options) %m.s %A}}\n\
    \n\
    *compile:\n\
    %(without_plugin)%{traditional:%eGNU C no longer supports -traditional without -E}%{save-temps*|\
    traditional-cpp|no-integrated-cpp:%{march=native|mtune=native:%e-march=native and a \
    preprocessor of its own are not in this spec file together}%(trad_capable_cpp) %(cpp_options) \
    -o %(preprocessed)\n %(cc1_cmd) -fpreprocessed %(preprocessed) %(cc1_options) \
    %(distro_defaults);:%(cc1_cmd) %(cpp_unique_options) %(cc1_options) %(distro_defaults)}\n\
    \n";

/// The languages: what is run for a source of each.
const LANGUAGES: &[u8] = b"\
    @c:\n\
    %(driver_alone) %{E|M|MM:%(trad_capable_cpp) %(cpp_options) %(cpp_debug_options) %V;\
    :%(compile) %{!fsyntax-only:%(invoke_as)}} %(refused_here)\n\
    \n\
    @cpp-output:\n\
    %(driver_alone) %{E|M|MM:;:%(without_plugin)%(cc1_cmd) -fpreprocessed %i %(cc1_options) %(distro_defaults\
    ) %{!fsyntax-only:%(invoke_as)}} %(refused_here)\n\
    \n\
    @assembler-with-cpp:\n\
    %(driver_alone) %(trad_capable_cpp) -lang-asm %(cpp_options) -fno-directives-only %{E|M|\
    MM:%(cpp_debug_options) %V;S:%V;save-temps*:-o %(assembly)\n \
    %(wrapper)%(as_cmd) %(asm_debug) %(asm_options) %(assembly) %A;:-o %|.s |\n \
    %(later_wrapper)%(as_cmd) %(asm_debug) %(asm_options) %m.s %A} %(refused_here)\n\
    \n\
    @assembler:\n\
    %{E|S|M|MM:;:%(wrapper)%(as_cmd) %(asm_debug) %(asm_options) %i %A} %(refused_here)\n\
    \n\
    .h:\n\
    @c-header\n\
    \n\
    @c-header:\n\
    %(driver_alone) %{E|M|MM:%(trad_capable_cpp) %(cpp_options) %(cpp_debug_options) %V;\
    :%(compile) %{!fsyntax-only:%{!S:-o %{save-temps*:%(assembly);:%g.s}} \
    %{!fdump-ada-spec*:%W{o*:--output-pch=%*}%{!o*:--output-pch=%i.gch}} %V}} \
    %(refused_here)\n\
    \n";

/// What each link is refused for.
const LINK_GUARD: &[u8] = b"\
    *link_command:\n\
    + %{fsyntax-only|c|M|MM|E|S:;:%(hiding_folders)%{-gdrv-dirs:%(other_library)}\
    %(without_plugin)%{fvtable-verify=*:%e-fvtable-verify= is not in this spec file}} \
    %(refused_here)\n\
    \n";

/// Adds the texts that precede those of a dump.
#[tactic(auto, unfolding(crate::specs::Fixed::first_texts))]
pub(crate) fn push_first(text: &mut Word) -> Result<(), AllocError>
    ensures { OnOk result (text.new ≡ text.old ++ first_texts) }
{
    text.extend_from_slice(FIRST)
}

/// Adds the names of side files.
#[tactic(auto, unfolding(crate::specs::Fixed::side_files))]
fn push_side_files(text: &mut Word, files: SideFiles) -> Result<(), AllocError>
    ensures { OnOk result (text.new ≡ text.old ++ side_files files) }
{
    text.extend_from_slice(SIDE_FILES)?;
    match files {
        SideFiles::Front => text.extend_from_slice(FRONT_NAMES),
        SideFiles::Source => text.extend_from_slice(SOURCE_NAMES),
    }
}

/// Adds what a line is refused for.
#[tactic(auto, unfolding(crate::specs::Fixed::guards))]
fn push_guards(text: &mut Word) -> Result<(), AllocError>
    ensures { OnOk result (text.new ≡ text.old ++ guards) }
{
    text.extend_from_slice(GUARDS)
}

/// Adds what a line without the front is refused for.
#[tactic(auto, unfolding(crate::specs::Fixed::alone))]
fn push_alone(text: &mut Word) -> Result<(), AllocError>
    ensures { OnOk result (text.new ≡ text.old ++ alone) }
{
    text.extend_from_slice(ALONE)
}

/// Adds the words of `-wrapper`.
#[tactic(auto, unfolding(crate::specs::Fixed::wrappers))]
fn push_wrappers(text: &mut Word) -> Result<(), AllocError>
    ensures { OnOk result (text.new ≡ text.old ++ wrappers) }
{
    text.extend_from_slice(WRAPPERS)
}

/// Adds how a source is compiled.
#[tactic(auto, unfolding(crate::specs::Fixed::commands))]
fn push_commands(text: &mut Word) -> Result<(), AllocError>
    ensures { OnOk result (text.new ≡ text.old ++ commands) }
{
    text.extend_from_slice(COMMANDS)
}

/// Adds what each link is refused for.
#[tactic(auto, unfolding(crate::specs::Fixed::link_guard))]
fn push_link_guard(text: &mut Word) -> Result<(), AllocError>
    ensures { OnOk result (text.new ≡ text.old ++ link_guard) }
{
    text.extend_from_slice(LINK_GUARD)
}

/// Adds the languages.
#[tactic(auto, unfolding(crate::specs::Fixed::languages))]
fn push_languages(text: &mut Word) -> Result<(), AllocError>
    ensures { OnOk result (text.new ≡ text.old ++ languages) }
{
    text.extend_from_slice(LANGUAGES)
}

/// Adds the texts that follow those of a dump.
#[tactic(auto, unfolding(crate::specs::Fixed::last_texts))]
pub(crate) fn push_last(text: &mut Word, files: SideFiles) -> Result<(), AllocError>
    ensures { OnOk result (text.new ≡ text.old ++ last_texts files) }
{
    push_guards(text)?;
    push_alone(text)?;
    push_side_files(text, files)?;
    push_wrappers(text)?;
    push_commands(text)?;
    push_link_guard(text)?;
    push_languages(text)
}
