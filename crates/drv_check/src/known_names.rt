//! The names of texts that count as run, though no text names them.

/// The names of the built-in texts and of those that they name, and of the texts that the programs
/// run by themselves.
const DRIVER_NAMES: &[u8] =
    b"asm asm_final asm_options as_cmd cpp cpp_options cpp_unique_options cpp_cmd cc1 cc1_options \
      cc1_cmd signed_char linker link link_command link_gcc_c_sequence startfile lib libgcc endfile \
      gdrv_self gdrv_pass";

/// The names of gcc's own texts that the built-in set has not (GCC, "gcc.cc", static_specs).
const GCC_NAMES: &[u8] =
    b"asm_debug asm_debug_option asm_final invoke_as cpp_debug_options trad_capable_cpp cc1plus \
      link_ssp link_gomp cross_compile version multilib multilib_defaults multilib_extra \
      multilib_matches multilib_exclusions multilib_options multilib_reuse linker_plugin_file \
      lto_wrapper lto_gcc post_link link_libgcc md_exec_prefix md_startfile_prefix \
      md_startfile_prefix_1 startfile_prefix_spec sysroot_spec sysroot_suffix_spec \
      sysroot_hdrs_suffix_spec self_spec";

/// For whom spec files are: whose texts count as run, though no text names them, and what is a
/// switch.
#[derive(Clone, Copy, Debug)]
pub enum Names {
    /// The driver: the built-in texts count, and those that its programs run.
    Driver,
    /// gcc too: its own texts count as well and are there, and what it takes for a switch is one.
    Gcc,
}

/// Whether a text has a name between spaces.
fn stands_in(text: &[u8], name: &[u8]) -> bool {
    text.split(|byte| *byte == b' ').any(|other| name == other)
}

/// Whether gcc has the text of this name, where its names count.
pub(crate) fn gcc_has(whose: Names, name: &[u8]) -> bool {
    match whose {
        Names::Driver => false,
        Names::Gcc => stands_in(GCC_NAMES, name),
    }
}

/// Whether the driver runs the text of this name itself, or gcc, where its names count.
pub(crate) fn is_run(whose: Names, name: &[u8]) -> bool {
    stands_in(DRIVER_NAMES, name) || gcc_has(whose, name)
}
