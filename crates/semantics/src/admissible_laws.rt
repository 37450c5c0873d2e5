// Laws on the sets of joins that may stand.
ghost use Rattle.semantics.specs.AdmissibleLaws.{JoinedIsAdmissible};
ghost use Rattle.semantics.specs.StateLaws.{EnteredIsAdmissible};

/// An admissible set stays admissible with a join that has no cause against it.
pub fn joined_is_admissible()
    ensures { JoinedIsAdmissible }
{}

/// The set of joins that stand after entries without a cause against them is admissible.
pub fn entered_is_admissible()
    ensures { EnteredIsAdmissible }
{}
