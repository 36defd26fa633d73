//! Examples of what kept members keep live, on the programs of `specs/KeptExamples.antt`.

ghost use Rattle.dalvik_defs.specs.Names.{void};
ghost use Rattle.dalvik_defs.specs.Examples.{b_type, c_type, i_type, keeps_m, r_key};
ghost use Rattle.program_model.specs.declared.program.Version.{Version};
ghost use Rattle.pass_defs.specs.Live.{IsMade, IsLiveMethod, unconditional};
ghost use Rattle.pass_defs.specs.KeptExamples.{names_view, keeps_constructor, overrides_r, implements_r, keeps_r};

/// A live class whose constructor the rules keep is made, since the framework may make its objects; so what the framework
/// calls on them is live.
pub fn a_class_with_a_kept_constructor_is_made()
    ensures made { IsMade names_view (keeps_m void) keeps_constructor b_type }
    ensures called { IsLiveMethod names_view (keeps_m void) keeps_constructor (r_key b_type) }
{}

/// Where a virtual method is kept, its override in a made class below is live, and so is what a made class has in place of
/// an interface's kept method, in both versions.
pub fn an_override_of_a_kept_method_is_live()
    ensures class { IsLiveMethod overrides_r (keeps_r b_type c_type) unconditional (r_key c_type) }
    ensures interface { (v : Version) → IsLiveMethod (implements_r v) (keeps_r i_type b_type) unconditional (r_key b_type) }
{}
