//! The forms of gcc's spec texts that this driver has in other words.

ghost use Rattle.drv_dump.specs.Forms as forms;
ghost use Rattle.std.specs.Cmp.Lexicographic.{pointwise};
ghost use Rattle.std.specs.List.{list_any, starts_with};
ghost use Rattle.std.specs.Map.{lookup};
ghost use Rattle.std.specs.Option.{option_map};
ghost use Rattle.std.specs.Prelude.{◌≡◌, nat_eq};

/// A form of several pieces that a text of gcc has exactly so.
#[derive(Clone, Copy, Debug)]
pub(crate) enum WholeForm {
    /// The object of the assembler.
    Object,
    /// The same of an older gcc.
    OlderObject,
    /// The object that loses its debug information.
    SplitObject,
    /// The same of an older gcc.
    OlderSplitObject,
    /// The file of dependencies.
    Dependencies,
    /// The name of the file that gets the debug information, of an older gcc.
    OlderDwoName,
    /// The same.
    DwoName,
    /// The preprocessor.
    Preprocessor,
    /// What takes the debug information out.
    ExtractDwo,
    /// What strips the object of it.
    StripDwo,
    /// What the linker's driver alone reads.
    LinkTimeOptions,
    /// The choice of a linker, which the name of the linker has made.
    LinkerChoice,
    /// The options of the line for the machine, which gcc adds those to that it was built for.
    MachineOptions,
}

impl WholeForm {
    /// How gcc writes it.
    fn of_gcc(self) -> &'static [u8]
        ensures { result.now ≡ forms.of_gcc self }
    {
        match self {
            WholeForm::Object => b"%{c:%W{o*}%{!o*:-o %w%b%O}}%{!c:-o %d%w%u%O}",
            WholeForm::OlderObject => b"%{c:%W{o*}%{!o*:-o %w%b%O}}%{!c:-o %d%u%O}",
            WholeForm::SplitObject => b"%{c:%{o*:%*}%{!o*:%w%b%O}}%{!c:%U%O}",
            WholeForm::OlderSplitObject => b"%{c:%{o*:%*}%{!o*:%b%O}}%{!c:%U%O}",
            WholeForm::Dependencies => b"%{!o:%b.d}%{o*:%.d%*}",
            WholeForm::OlderDwoName => {
                b"%{c:%{o*:%:replace-extension(%{o*:%*} .dwo)}%{!o*:%b.dwo}}%{!c:%b.dwo}"
            }
            WholeForm::DwoName => b"%b.dwo",
            WholeForm::Preprocessor => b"cc1 -E",
            WholeForm::ExtractDwo => b"objcopy --extract-dwo",
            WholeForm::StripDwo => b"objcopy --strip-dwo",
            WholeForm::LinkTimeOptions => b"%{flto} %{fno-lto} %{flto=*}",
            WholeForm::LinkerChoice => b"%{fuse-ld=*:-fuse-ld=%*}",
            WholeForm::MachineOptions => b"%{m*}",
        }
    }

    /// How this driver has it.
    pub(crate) fn ours(self) -> &'static [u8]
        ensures { result.now ≡ forms.ours self }
    {
        match self {
            WholeForm::Object | WholeForm::OlderObject => b"%(object)",
            WholeForm::SplitObject | WholeForm::OlderSplitObject => b"%(split_object)",
            WholeForm::Dependencies => b"%(dependencies)",
            WholeForm::OlderDwoName | WholeForm::DwoName => b"%(dwo_name)",
            WholeForm::Preprocessor => b"%(cc1_cmd) -E",
            WholeForm::ExtractDwo => b"%(objcopy_cmd) --extract-dwo",
            WholeForm::StripDwo => b"%(objcopy_cmd) --strip-dwo",
            WholeForm::LinkTimeOptions | WholeForm::LinkerChoice => b"",
            WholeForm::MachineOptions => b"%(machine_options)",
        }
    }

    /// How many bytes it has after its first one.
    pub(crate) fn others(self) -> usize
        ensures { result ≡ forms.others self }
    {
        self.of_gcc().len() - 1
    }

    /// A text begins with it.
    fn begins(self, text: &[u8]) -> bool
        ensures { result ≡ starts_with nat_eq text.now (forms.of_gcc self) }
    {
        text.starts_with(self.of_gcc())
    }
}

/// The form that a text begins with.
pub(crate) fn form_at(text: &[u8]) -> Option<WholeForm>
    ensures { result ≡ forms.form_at text.now }
{
    if WholeForm::Object.begins(text) {
        Some(WholeForm::Object)
    } else if WholeForm::OlderObject.begins(text) {
        Some(WholeForm::OlderObject)
    } else if WholeForm::SplitObject.begins(text) {
        Some(WholeForm::SplitObject)
    } else if WholeForm::OlderSplitObject.begins(text) {
        Some(WholeForm::OlderSplitObject)
    } else if WholeForm::Dependencies.begins(text) {
        Some(WholeForm::Dependencies)
    } else if WholeForm::OlderDwoName.begins(text) {
        Some(WholeForm::OlderDwoName)
    } else if WholeForm::DwoName.begins(text) {
        Some(WholeForm::DwoName)
    } else if WholeForm::Preprocessor.begins(text) {
        Some(WholeForm::Preprocessor)
    } else if WholeForm::ExtractDwo.begins(text) {
        Some(WholeForm::ExtractDwo)
    } else if WholeForm::StripDwo.begins(text) {
        Some(WholeForm::StripDwo)
    } else if WholeForm::LinkTimeOptions.begins(text) {
        Some(WholeForm::LinkTimeOptions)
    } else if WholeForm::LinkerChoice.begins(text) {
        Some(WholeForm::LinkerChoice)
    } else if WholeForm::MachineOptions.begins(text) {
        Some(WholeForm::MachineOptions)
    } else {
        None
    }
}

/// What a directive becomes that this driver has in other words.
pub(crate) fn directive_of(directive: &[u8]) -> Option<&'static [u8]>
    ensures { option_map (λ words. words.now) result ≡ lookup (pointwise nat_eq directive.now) forms.directives }
{
    if directive == b"%I".as_slice() {
        Some(b"%(include_words)")
    } else if directive == b"%D".as_slice() {
        Some(b"%(link_folders)")
    } else if directive == b"%M".as_slice() {
        Some(b"%(multilib_folder)")
    } else if directive == b"%R".as_slice() {
        Some(b"%(sysroot_folder)")
    } else if directive == b"%j".as_slice() {
        Some(b"%(checked)")
    } else if directive == b"%o".as_slice() {
        Some(b"%@{!-gdrv-none:%o}")
    } else {
        None
    }
}

/// This driver has the directive neither so nor in other words.
pub(crate) fn is_lacking(directive: &[u8]) -> bool
    ensures { result ≡ list_any (pointwise nat_eq directive.now) forms.lacking_directives }
{
    matches!(directive, b"%c" | b"%p" | b"%P" | b"%v" | b"%." | b"%\"")
}

/// What a function in a text becomes.
pub(crate) fn call_of(call: &[u8]) -> Option<&'static [u8]>
    ensures { option_map (λ words. words.now) result ≡ lookup (pointwise nat_eq call.now) forms.calls }
{
    if call == b"%:dumps()".as_slice() {
        Some(b"%(dump_words)")
    } else if call == b"%:find-plugindir()".as_slice() {
        Some(b"%(plugin_folder)")
    } else if call == b"%:pass-through-libs(%(link_gcc_c_sequence))".as_slice() {
        Some(b"%(lto_pass_through)")
    } else if call == b"%:print-asm-header()".as_slice()
        || call == b"%:compare-debug-dump-opt()".as_slice()
        || call == b"%:compare-debug-self-opt()".as_slice()
        || call == b"%:compare-debug-auxbase-opt(%b)".as_slice()
    {
        Some(b"")
    } else {
        None
    }
}

/// What a function that is a test becomes.
pub(crate) fn test_of(call: &[u8]) -> Option<&'static [u8]>
    ensures { option_map (λ words. words.now) result ≡ lookup (pointwise nat_eq call.now) forms.tests }
{
    if call == b"%:debug-level-gt(0)".as_slice() {
        Some(b"-gdrv-level=*")
    } else if call == b"%:debug-level-gt(2)".as_slice() {
        Some(b"-gdrv-level=3")
    } else if call == b"%:dwarf-version-gt(4)".as_slice() {
        Some(b"-gdrv-dwarf=5")
    } else if call == b"%:gt(%{ftree-parallelize-loops=*:%*} 1)".as_slice() {
        Some(b"%:version-compare(>= 2 ftree-parallelize-loops= y)")
    } else {
        check_of(call)
    }
}

/// The tests of which one must hold for a function that is a test.
pub(crate) fn either_test_of(call: &[u8]) -> Option<&'static [u8]>
    ensures { option_map (λ words. words.now) result ≡ lookup (pointwise nat_eq call.now) forms.either_tests }
{
    if call == b"%:dwarf-version-gt(3)".as_slice() {
        Some(b"-gdrv-dwarf=4|-gdrv-dwarf=5")
    } else if call == b"%:dwarf-version-gt(2)".as_slice() {
        Some(b"-gdrv-dwarf=3|-gdrv-dwarf=4|-gdrv-dwarf=5")
    } else {
        None
    }
}

/// What the test of a check becomes.
fn check_of(call: &[u8]) -> Option<&'static [u8]>
    ensures { option_map (λ words. words.now) result ≡ lookup (pointwise nat_eq call.now) forms.checks }
{
    if call == b"%:sanitize(address)".as_slice() {
        Some(b"-gdrv-san=asan")
    } else if call == b"%:sanitize(hwaddress)".as_slice() {
        Some(b"-gdrv-san=hwasan")
    } else if call == b"%:sanitize(thread)".as_slice() {
        Some(b"-gdrv-san=tsan")
    } else {
        other_check_of(call)
    }
}

/// What the test of one of the other checks becomes.
fn other_check_of(call: &[u8]) -> Option<&'static [u8]>
    ensures { option_map (λ words. words.now) result
        ≡ lookup (pointwise nat_eq call.now) forms.other_checks }
{
    if call == b"%:sanitize(leak)".as_slice() {
        Some(b"-gdrv-san=lsan")
    } else if call == b"%:sanitize(undefined)".as_slice() {
        Some(b"-gdrv-san=ubsan")
    } else {
        None
    }
}

/// The call of a function that this driver has too.
pub(crate) fn is_ours(call: &[u8]) -> bool
    ensures { result ≡ list_any (starts_with nat_eq call.now) forms.own_calls }
{
    call.starts_with(b"%:getenv(")
        || call.starts_with(b"%:if-exists(")
        || call.starts_with(b"%:if-exists-else(")
        || call.starts_with(b"%:if-exists-then-else(")
        || call.starts_with(b"%:replace-outfile(")
        || call.starts_with(b"%:remove-outfile(")
        || call.starts_with(b"%:version-compare(")
}
